// The source book (02): its bytes, what reading, starting and extending one check, answer and leave, and the laws. Definitions (specs/) and
// laws (proofs/) alone; the code is in the crate `book`. Relies on `blocks` and `numbers`.
#![tactic(auto)]

// What a book reports: the total it opens with, the sum of the sources above 0, the size of the sum of those below, and the total it closes with.
#[derive(Clone, Copy)]
pub struct BookReport {
    pub opening: u32,
    pub inflow: u64,
    pub outflow: u64,
    pub closing: u32,
}
