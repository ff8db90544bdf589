// The inside of Read a field file: the lists and the sizes, once the file was checked. Everything here is for the crate `field_file`; no
// function is an operation. Relies on `files_spec`, `block_tables`, `blocks`, `qlt_spec` and `numbers`.
#![tactic(auto)]

pub mod work;
