// The split of one group along a chain in a lent scratch, one division for each item and pass. Everything here is for the crates above; no
// function is an operation. Relies on `scratch_spec`, `caas_spec` and `numbers`.
#![tactic(auto)]

pub mod columns;
pub mod group;
