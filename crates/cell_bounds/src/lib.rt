// One cell's bounds from its air mass and mixing ratios. Every function takes and gives an air mass, a tracer mass or a ratio as what it is,
// so that none stands in another's place. The functions are for the crate `bounds`; none of them is an operation.
// Relies on `bounds_spec`.
#![tactic(auto)]

pub mod masses;
pub mod ratios;
