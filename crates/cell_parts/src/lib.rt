// The parts of a cell's correction, from the lists of a field and its outcome (02, ticket 6). Everything here is for the crate `query`; no
// function is an operation. Relies on `query_spec`, `reconstruct`, `solve`, `solve_spec`, `qlt_spec`, `caas_spec` and `numbers`.
#![tactic(auto)]

pub mod parts;
