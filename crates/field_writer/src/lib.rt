// The inside of Write a field file: the file's size, and its blocks once the call was checked. Everything here is for the crate
// `field_file`; no function is an operation. Relies on `files_spec`, `block_tables`, `blocks`, `qlt_spec` and `numbers`.
#![tactic(auto)]

mod cells;
pub mod sizes;
pub mod work;
