// The lines of text.
use crate::Run;
use family_spec::Family;
use numbers::Refusal;
use std::fmt;
use std::fmt::Write;
use test_support::output::{Masses, Output};
use turns::waiting_count;

// What Start gave.
pub fn show_started(answer: Result<(), Refusal>) -> fmt::Result {
    match answer {
        Ok(()) => writeln!(Output, "start done"),
        Err(refusal) => writeln!(Output, "start refused {}", refusal.number),
    }
}

// How many members are open.
fn open_members(family: Family) -> usize {
    family.members.iter().filter(|member| member.opened).count()
}

// The sum of the totals.
fn totals(family: Family) -> u64 {
    let mut sum: u64 = 0;
    for member in family.members.iter() {
        sum = sum % 1000000000000 + u64::from(member.total);
    }
    sum
}

// The line of a run.
pub fn show(calls: u64, run: Run, kept: &[u32; 64], turns: &[u32; 11]) -> fmt::Result {
    write!(
        Output,
        "calls {calls} open {} waiting {} served {} idle {} longest {} accepted {} refused {}",
        open_members(run.family),
        waiting_count(run.family),
        turns[8],
        turns[9],
        turns[10],
        run.accepted,
        run.refused
    )?;
    writeln!(
        Output,
        " totals {}{} told {} shared {}",
        totals(run.family),
        Masses(kept),
        run.told,
        run.shared
    )
}

// A line for each number: how many calls were refused with it.
pub fn show_counts(counts: &[u32; 21]) -> fmt::Result {
    for number in 1..21 {
        writeln!(Output, "refused {number} {}", counts[number])?;
    }
    Ok(())
}
