// Families of kept fields under one cap, with turns (02): what Start, Open, Step and Register of a member and Turn check, answer and give back,
// histories of these calls, and the theorems about every history. Definitions (specs/) and laws (proofs/) alone; the code is in the crate `family`.
// Relies on `kept_spec`, `book_spec`, `blocks`, `qlt_spec`, `caas_spec` and `numbers`.
#![tactic(auto)]

use kept_spec::Stepped;
use numbers::Refusal;

// What a family holds of a member: whether it is open, and its total, 0 for one that is not. No `Option<u32>`, since a family that comes from C can
// have a member that is not open with a total that is not 0, and the contracts speak of it.
#[derive(Clone, Copy)]
pub struct Member {
    pub opened: bool,
    pub total: u32,
}

// A family by value: the cap on the sum of the totals, the scale and the number of cells of every member, the members, who of them waits (bit i
// is member i's), and the member with which the search for the next one begins.
#[derive(Clone, Copy)]
pub struct Family {
    pub cap: u64,
    pub scale: u32,
    pub cells: u32,
    pub members: [Member; 8],
    pub waiting: u8,
    pub from: u32,
}

// What a turn serves: the member, and the answer of its step.
#[derive(Clone, Copy)]
pub struct Served {
    pub member: u32,
    pub stepped: Result<Stepped, Refusal>,
}

// What each call gives: the family for the next call, and its answer.
#[derive(Clone, Copy)]
pub struct FamilyAnswer<T> {
    pub family: Family,
    pub answer: T,
}
