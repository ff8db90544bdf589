// The lent scratch as columns of numbers, chains through its rows, and what each walk along a chain leaves: definitions (specs/) and laws
// (proofs/) alone; the code is in the crate `walks`. Relies on `caas_spec` and `numbers`.
#![tactic(auto)]

// The numbers of the scratch that a row takes; `width` in specs/Columns.antt.
pub const WIDTH: usize = 4;

// The columns of a row: a node's target, later its mass; its low and high in force; its weight; its first child; its next sibling. Where each
// stands, specs/Columns.antt says.
#[derive(Clone, Copy)]
pub enum Column {
    Mass,
    Low,
    High,
    Weight,
    First,
    Next,
}
