// The masses of a whole tree in a lent scratch: sums from the leaves up, then splits from the root down. Everything here is for the crates
// above; no function is an operation. Relies on `solve_spec`, `walks`, `qlt_spec`, `scratch_spec` and `numbers`.
#![tactic(auto)]

mod descend;
mod load;
pub mod whole_tree;
