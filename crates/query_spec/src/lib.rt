// Where a cell's correction came from (02, ticket 6): the three parts of it that the steps of a split make, what the operation Query checks,
// and the line of text that it writes. Definitions (specs/) and laws (proofs/) alone; the code is in the crates `cell_parts`, `query_lines`
// and `query`. Relies on `repair_file`, `text`, `files_spec`, `qlt_spec`, `caas_spec` and `numbers`.
#![tactic(auto)]

// The parts of a cell's correction, mass minus target, to which they add up: clipping, first share and second share.
#[derive(Clone, Copy)]
pub struct Parts {
    pub clipping: i64,
    pub first: i64,
    pub second: i64,
}
