// A test program: edits stay in their region. It opens two kept fields of 8 masses of 1000 at scale 0, each with a book of its own, and makes 100
// rounds. A round draws a tree, a field around the first field's masses, a source, some of which go too far, a node, mostly an inner one where
// there is one below the root, and 24 moves from cell to cell below that node, which leave the six sums below it as they are. It calls
// Reconstruct, for the first field's total plus the source, of the field, of the edited field, and of the field with 50 added to the target of
// the first cell below the node; then it steps the first kept field by the field, and the second by the edited one. It prints two lines: the
// tree's kind, the node, the source, and what the three calls answered, with their masses; and what the two steps answered, with the kept masses
// after them. At the end it prints five lines: the rounds in which the field was repaired and stepped by, or refused; of the rounds in which it
// and the edited one were accepted the cells outside the node, and those whose masses differ, of Reconstruct and of the steps; the same of the
// cells below the node; the rounds in which Reconstruct, and the steps, answered otherwise; and of the field with a changed sum the cells
// outside, those whose masses differ, and the rounds with such a cell. Outside the node no mass may differ and no answer may be otherwise, but
// with a changed sum masses outside do differ. `stdout` was written by an implementation of the papers' own words in another language, and not by
// this program. Numbers stay far below the remainders by which overflow is ruled out.
// Relies on `kept` and `reconstruct`, which it tests, `kept_spec`, `qlt_spec` and `numbers` for the answers, and `test_support`.
#![tactic(auto)]

use counts::Counts;
use repairs::show_repairs;
use round::draw_round;
use std::fmt;
use std::fmt::Write;
use steps::{Standing, step_both};
use test_support::output::Output;

mod below;
mod counts;
mod edits;
mod field;
mod output;
mod repairs;
mod round;
mod steps;

// Prints the lines of the counts.
fn show_counts(counts: &Counts) -> fmt::Result {
    let repairs = counts.repairs;
    let steps = counts.steps;
    writeln!(
        Output,
        "rounds 100 reconstructed {} refused {} stepped {} refused {}",
        repairs.accepted, repairs.refused, steps.accepted, steps.refused
    )?;
    writeln!(
        Output,
        "outside cells {} reconstructed otherwise {} cells {} stepped otherwise {}",
        repairs.outside.all, repairs.outside.differ, steps.outside.all, steps.outside.differ
    )?;
    writeln!(
        Output,
        "below cells {} reconstructed otherwise {} cells {} stepped otherwise {}",
        repairs.below.all, repairs.below.differ, steps.below.all, steps.below.differ
    )?;
    writeln!(
        Output,
        "answers otherwise {} {}",
        repairs.otherwise, steps.otherwise
    )?;
    let changed = counts.changed.outside;
    writeln!(
        Output,
        "changed cells {} reconstructed otherwise {} rounds {}",
        changed.all, changed.differ, counts.rounds
    )
}

// Opens the two kept fields, makes 100 rounds, and prints the counts.
fn run_all() -> fmt::Result {
    let mut first = Standing::open();
    let mut second = Standing::open();
    let mut counts = Counts::default();
    let mut state = 1;
    for _ in 0..100 {
        let round = draw_round(state, &first.masses);
        show_repairs(&round, first.balance.total, &mut counts)?;
        step_both(&round, &mut first, &mut second, &mut counts.steps)?;
        state = round.state;
    }
    show_counts(&counts)
}

fn main() {
    let _ = run_all();
}
