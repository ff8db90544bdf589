// From a field file's bytes to its repaired masses, for the call from C and the report: what that is, and in `repair` the code. No
// operation stands here. Relies on `field_file`, `files_spec`, `blocks`, `reconstruct`, `qlt_spec` and `numbers`.
#![tactic(auto)]

pub mod repair;
