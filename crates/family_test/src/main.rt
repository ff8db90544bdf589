// A test program: families of 8 members under one cap, with turns. It makes three starts that are refused and one that is accepted, over 8 cells at
// scale 20 with a cap of 66000, and from that family 16,000 openings, registrations and steps of members, some of these by turns, with fields drawn
// by a generator, most openings and some other calls with a fault, so that every number that these calls refuse with occurs; after every 2,000 calls
// it starts again from that family. It prints a line every 500 calls: the members open and those that wait, the turns that served a member and the
// idle ones, the longest that a member has waited, in turns with its own, the calls accepted and refused, the sum of the totals, the sum and a check
// number of all kept masses, a check number of all that was told and of the family after every call, with the next in turn and the number waiting,
// and what the accepted steps have shared out; and at the end how many calls were refused with each number. In every line the sum must be the sum of
// the totals and at most 66000, and the longest wait at most 8. `stdout` was written by an implementation of the papers' own words in another
// language, and not by this program. Each member has a book of its own, started from the total that it opens with and lent along with its steps;
// nothing of it is printed. Numbers stay far below the remainders by which overflow is ruled out. Relies on `turns` and `family`, which it
// tests, `book` for the books, `family_spec`, `kept_spec`, `qlt_spec` and `numbers` for the answers, and `test_support`.
#![tactic(auto)]

use calls::one_call;
use family::start_family;
use family_spec::Family;
use std::fmt;
use waits::forget;

mod books;
mod calls;
mod faults;
mod masses;
mod output;
mod waits;

// The generator's state, the family standing, the calls accepted and refused so far, the check number of what was told, and what the accepted
// steps have shared out.
#[derive(Clone, Copy)]
pub struct Run {
    pub state: u32,
    pub family: Family,
    pub accepted: u32,
    pub refused: u32,
    pub told: u64,
    pub shared: u64,
}

// Makes 500 calls.
fn some_calls(
    run: Run,
    kept: &mut [u32; 64],
    books: &mut [u8; 262144],
    lengths: &mut [usize; 8],
    turns: &mut [u32; 11],
    counts: &mut [u32; 21],
) -> Run {
    let mut now = run;
    for _ in 0..500 {
        now = one_call(now, kept, books, lengths, turns, counts);
    }
    now
}

// Makes 4 times 500 calls, and prints a line after each 500.
fn more_calls(
    run: Run,
    done: u64,
    kept: &mut [u32; 64],
    books: &mut [u8; 262144],
    lengths: &mut [usize; 8],
    turns: &mut [u32; 11],
    counts: &mut [u32; 21],
) -> Result<Run, fmt::Error> {
    let mut now = run;
    for i in 0..4 {
        now = some_calls(now, kept, books, lengths, turns, counts);
        output::show(done % 1000000 + (i + 1) * 500, now, kept, turns)?;
    }
    Ok(now)
}

// The run with a family that was just started.
fn afresh(run: Run, family: Family) -> Run {
    Run { family, ..run }
}

// Makes 8 times 2,000 calls, from the family that was started each time.
fn all_calls(family: Family, counts: &mut [u32; 21]) -> fmt::Result {
    let mut now = Run {
        state: 1,
        family,
        accepted: 0,
        refused: 0,
        told: 0,
        shared: 0,
    };
    let mut turns = [0u32; 11];
    let mut books = [0u8; 262144];
    let mut lengths = [0usize; 8];
    for i in 0..8 {
        let mut kept = [0u32; 64];
        forget(&mut turns);
        now = more_calls(
            afresh(now, family),
            i * 2000,
            &mut kept,
            &mut books,
            &mut lengths,
            &mut turns,
            counts,
        )?;
    }
    Ok(())
}

// Starts a family, and prints what Start gave.
fn show_start(scale: u32, cells: u32) -> fmt::Result {
    output::show_started(start_family(66000, scale, cells).answer)
}

// Makes the starts, and the calls from the last one if it is accepted.
fn run_all() -> fmt::Result {
    show_start(31, 0)?;
    show_start(31, 513)?;
    show_start(31, 8)?;
    show_start(20, 8)?;
    let started = start_family(66000, 20, 8);
    if started.answer.is_ok() {
        let mut counts = [0u32; 21];
        all_calls(started.family, &mut counts)?;
        output::show_counts(&counts)?;
    }
    Ok(())
}

fn main() {
    let _ = run_all();
}
