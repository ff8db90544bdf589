// What the program prints for an accepted field: the definition of the text, and in `lines`, for the crate `report`, functions that put it
// into a lent list of bytes. None of them is an operation. Relies on `text`, `qlt_spec` and `numbers`.
#![tactic(auto)]

pub mod lines;
