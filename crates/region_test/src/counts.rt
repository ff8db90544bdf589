// What is counted over all rounds.
use numbers::Refusal;
use test_support::draws::more;

// The cells on one side of the node, and those of them whose masses differ.
#[derive(Clone, Copy, Default)]
pub struct Cells {
    pub all: u32,
    pub differ: u32,
}

// Of two calls in each round: the rounds in which the first was accepted and refused; of the rounds in which both were accepted the cells outside
// the node and those below it; and the rounds in which the two answered otherwise.
#[derive(Clone, Copy, Default)]
pub struct Calls {
    pub accepted: u32,
    pub refused: u32,
    pub outside: Cells,
    pub below: Cells,
    pub otherwise: u32,
}

// Of Reconstruct of the field and of the edited one; of the steps; of Reconstruct of the field and of the one with a changed sum; and the rounds
// in which a mass outside differs with that one.
#[derive(Clone, Copy, Default)]
pub struct Counts {
    pub repairs: Calls,
    pub steps: Calls,
    pub changed: Calls,
    pub rounds: u32,
}

// What is compared of an answer: the outcome and the total, or the refusal.
pub type Told = Result<(u32, u32), Refusal>;

// Counts a cell by what its masses are.
fn count_cell(first: u32, second: u32, cells: &mut Cells) {
    cells.all = more(cells.all);
    if first != second {
        cells.differ = more(cells.differ);
    }
}

// Counts the cells on each side of the node.
fn count_cells(first: &[u32; 8], second: &[u32; 8], below: &[bool; 8], calls: &mut Calls) {
    for i in 0..8 {
        if below[i] {
            count_cell(first[i], second[i], &mut calls.below);
        } else {
            count_cell(first[i], second[i], &mut calls.outside);
        }
    }
}

// Counts two calls with the masses that they left.
pub fn count_calls(
    first: Told,
    second: Told,
    masses: &[u32; 8],
    others: &[u32; 8],
    below: &[bool; 8],
    calls: &mut Calls,
) {
    if first.is_ok() {
        calls.accepted = more(calls.accepted);
    } else {
        calls.refused = more(calls.refused);
    }
    if first.is_ok() && second.is_ok() {
        count_cells(masses, others, below, calls);
    }
    if first != second {
        calls.otherwise = more(calls.otherwise);
    }
}

// Counts the calls of Reconstruct of the field and of the one with a changed sum, and the round if a cell outside the node differs.
pub fn count_changed(
    first: Told,
    second: Told,
    masses: &[u32; 8],
    changed: &[u32; 8],
    below: &[bool; 8],
    counts: &mut Counts,
) {
    let before = counts.changed.outside.differ;
    count_calls(first, second, masses, changed, below, &mut counts.changed);
    if before < counts.changed.outside.differ {
        counts.rounds = more(counts.rounds);
    }
}
