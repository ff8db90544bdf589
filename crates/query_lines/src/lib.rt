// The lines that the operation Query writes, put into a lent list of bytes (02, ticket 6). Everything here is for the crate `query`; no
// function is an operation. Relies on `query_spec`, `text` and `numbers`.
#![tactic(auto)]

pub mod lines;
