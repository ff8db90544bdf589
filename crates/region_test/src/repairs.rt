// The calls of Reconstruct in a round: of the field, of the edited one, and of the one with a changed sum.
use crate::counts::{Counts, Told, count_calls, count_changed};
use crate::field::Field;
use crate::output::Repaired;
use crate::round::Round;
use numbers::Refusal;
use qlt_spec::Repair;
use std::fmt;
use std::fmt::Write;
use test_support::fields::nodes;
use test_support::output::{Masses, Output};
use test_support::reader::word;

// Calls Reconstruct on a field, with a scratch of its own.
fn repair(
    field: &Field,
    round: &Round,
    total: u32,
    masses: &mut [u32; 8],
) -> Result<Repair, Refusal> {
    let mut scratch = [0i64; 60];
    reconstruct::reconstruct(
        &field.lists(&round.parents[..nodes(round.kind)]),
        total,
        masses,
        &mut scratch,
    )
}

// What an answer tells.
fn told(answer: Result<Repair, Refusal>) -> Told {
    answer.map(|repair| (repair.outcome, repair.total))
}

// Makes the calls for the total standing and the source, or for 0 if they add up to less, and prints their line.
pub fn show_repairs(round: &Round, standing: u32, counts: &mut Counts) -> fmt::Result {
    let total = word(i64::from(standing) + i64::from(round.source));
    let mut masses = [0u32; 8];
    let mut others = [0u32; 8];
    let mut changed = [0u32; 8];
    let first = repair(&round.field, round, total, &mut masses);
    let second = repair(&round.edited, round, total, &mut others);
    let third = repair(&round.changed, round, total, &mut changed);
    count_calls(
        told(first),
        told(second),
        &masses,
        &others,
        &round.below,
        &mut counts.repairs,
    );
    count_changed(
        told(first),
        told(third),
        &masses,
        &changed,
        &round.below,
        counts,
    );
    writeln!(
        Output,
        "tree {} node {} source {} reconstruct {} edited {} changed {}",
        round.kind,
        round.node,
        round.source,
        Repaired {
            answer: first,
            masses: Masses(&masses)
        },
        Repaired {
            answer: second,
            masses: Masses(&others)
        },
        Repaired {
            answer: third,
            masses: Masses(&changed)
        }
    )
}
