// The kept field: what Open and Step check, answer and write, runs of Step calls, and the theorems about every run, with the book that a step adds
// its record to, and about two runs of which one is edited below a node (02). Definitions (specs/) and laws (proofs/) alone; the code is in the crate
// `kept`. Relies on `book_spec`, `blocks`, `qlt_spec`, `caas_spec` and `numbers`.
#![tactic(auto)]

use qlt_spec::Repair;

// What stands beside the kept masses, 02's record: 01's total standing, and the scale that it was opened at.
#[derive(Clone, Copy)]
pub struct Balance {
    pub total: u32,
    pub scale: u32,
}

// What an accepted step gives: the repair of its field for the new total; the balance of the masses that have replaced the kept ones, at the
// scale of the old one; and the length in bytes of its book, which has a record more.
#[derive(Clone, Copy)]
pub struct Stepped {
    pub repair: Repair,
    pub balance: Balance,
    pub length: usize,
}
