// A test program: a kept field through years of steps. It makes three openings that are refused, opens 8 cells at scale 20, makes 12,000
// Step calls with fields drawn by a generator, some with a fault, of the scale too, and prints a line every 500 calls: the calls accepted and
// refused, those refused with 17 among them, the total and scale standing, the sum and a check number of the kept masses, and what the
// accepted calls have shared out. The sum must be the total and the scale 20 in every line. `stdout` was written by an implementation of the
// papers' own words in another language, and not by this program. Each call is lent the field's book, started from the total at the opening and
// again from the total standing when it has 64 blocks; nothing of it is printed. Masses stay far below 1000000000, and what is shared out far below
// 1000000000000, so that the remainders by these, which rule out overflow, change none.
// Relies on `kept`, which it tests, `kept_spec`, `qlt_spec` and `numbers` for the answers, and `test_support`.
#![tactic(auto)]

ghost use Rattle.std.specs.Prelude.{◌<◌};

use kept_spec::{Balance, Stepped};
use numbers::Refusal;
use output::{show, show_opening};
use qlt_spec::FieldLists;
use std::fmt;
use test_support::books::start;
use test_support::draws::{draw, less, more};
use test_support::fields::{cross, fill, fill_parents, nodes};

mod output;

// The generator's state, the calls accepted and refused so far, those refused with 17 among them, the balance standing, the length of the book,
// and what the accepted calls have shared out.
#[derive(Clone, Copy)]
pub struct Run {
    pub state: u32,
    pub accepted: u32,
    pub refused: u32,
    pub refused_with_17: u32,
    pub balance: Balance,
    pub length: usize,
    pub shared: u64,
}

// The balance given: the one standing, or by fault 1 another total, and by faults 8 and 9 another scale. Faults stay the numbers that are drawn, of
// which several share a cause: an enum is no plainer.
fn given_balance(balance: Balance, fault: u32) -> Balance {
    match fault {
        1 => Balance {
            total: more(balance.total),
            ..balance
        },
        8 => Balance {
            scale: more(balance.scale),
            ..balance
        },
        9 => Balance {
            scale: 31,
            ..balance
        },
        _ => balance,
    }
}

// The scale that the step names: the one standing, or by faults 6, 7 and 9 another.
fn given_scale(scale: u32, fault: u32) -> u32 {
    match fault {
        7 => more(scale),
        6 | 9 => 31,
        _ => scale,
    }
}

// The source given: the one drawn, or by faults 4 and 5 one that is refused.
fn given_source(drawn: u32, fault: u32) -> i32
    requires { drawn < 2000000000 }
{
    match fault {
        4 => -2147483648,
        5 => 2000000,
        _ => less(drawn, 1500),
    }
}

// The run after a call that was told the book's length; a refused one leaves the book.
fn counted(run: Run, state: u32, told: usize, answer: Result<Stepped, Refusal>) -> Run {
    match answer {
        Ok(stepped) => Run {
            state,
            accepted: more(run.accepted),
            balance: stepped.balance,
            length: stepped.length,
            shared: run.shared % 1000000000000 + stepped.repair.shared % 1000000000000,
            ..run
        },
        Err(refusal) => Run {
            state,
            refused: more(run.refused),
            refused_with_17: if refusal.number == 17 {
                more(run.refused_with_17)
            } else {
                run.refused_with_17
            },
            length: told,
            ..run
        },
    }
}

// The length of the book to lend: of the one standing, or of a new one if that has 64 blocks.
fn lent(total: u32, length: usize, book: &mut [u8; 32768]) -> usize {
    if length < 32768 {
        length
    } else {
        start(total, book)
    }
}

// Draws a field and steps by it.
fn one_call(run: Run, kept: &mut [u32; 8], book: &mut [u8; 32768]) -> Run {
    let kind = draw(run.state, 3);
    let mut targets = [0i32; 8];
    let mut lows = [0u32; 8];
    let mut highs = [0u32; 8];
    let mut safe_lows = [0u32; 8];
    let mut safe_highs = [0u32; 8];
    let mut weights = [0u32; 8];
    let state = fill(
        kind.state,
        kept,
        &mut targets,
        &mut lows,
        &mut highs,
        &mut safe_lows,
        &mut safe_highs,
        &mut weights,
    );
    let source = draw(state, 3001);
    let fault = draw(source.state, 14);
    cross(fault.value == 2, &mut lows, &mut highs);
    let mut parents = [0u32; 15];
    fill_parents(kind.value, fault.value == 3, &mut parents);
    let told = lent(run.balance.total, run.length, book);
    let field = FieldLists {
        targets: &targets,
        lows: &lows,
        highs: &highs,
        safe_lows: &safe_lows,
        safe_highs: &safe_highs,
        weights: &weights,
        parents: &parents[..nodes(kind.value)],
    };
    let mut scratch = [0i64; 60];
    let answer = kept::step(
        given_balance(run.balance, fault.value),
        kept,
        given_source(source.value, fault.value),
        given_scale(run.balance.scale, fault.value),
        &field,
        &mut scratch,
        book,
        told,
    );
    counted(run, fault.state, told, answer)
}

// Makes 24 times 500 calls, and prints a line after each 500.
fn all_calls(balance: Balance, kept: &mut [u32; 8]) -> fmt::Result {
    let mut book = [0u8; 32768];
    let length = start(balance.total, &mut book);
    let mut run = Run {
        state: 1,
        accepted: 0,
        refused: 0,
        refused_with_17: 0,
        balance,
        length,
        shared: 0,
    };
    for i in 1..=24 {
        for _ in 0..500 {
            run = one_call(run, kept, &mut book);
        }
        show(i * 500, run, kept)?;
    }
    Ok(())
}

// Makes the openings, and steps from the last one if it is accepted.
fn run_all() -> fmt::Result {
    let heavy = [300000000u32; 8];
    show_opening(kept::open(&heavy[..0], 31))?;
    show_opening(kept::open(&heavy, 31))?;
    show_opening(kept::open(&heavy, 30))?;
    let mut kept = [1000u32; 8];
    let opened = kept::open(&kept, 20);
    show_opening(opened)?;
    if let Ok(balance) = opened {
        all_calls(balance, &mut kept)?;
    }
    Ok(())
}

fn main() {
    let _ = run_all();
}
