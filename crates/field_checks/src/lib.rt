// The checks 1 to 8 of Reconstruct, which Step shares, and the outcome: code for the definitions of the crate `qlt_spec`. Everything here
// is for the crates above; no function is an operation. Relies on `qlt_spec` and `numbers`.
#![tactic(auto)]

pub mod shape;
pub mod total;
pub mod tree;
pub mod values;
