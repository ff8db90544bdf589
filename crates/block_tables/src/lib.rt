// Tables of records in the blocks of a file: their sizes, checks, reading and writing. Everything here is for the crates of files; no function is
// an operation. Relies on `blocks` and `numbers`.
#![tactic(auto)]

pub mod tables;
