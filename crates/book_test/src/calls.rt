// One call: a field drawn, a step made with the book, and what it told counted.
ghost use Rattle.std.specs.Prelude.{◌≡◌, ◌≤◌, length};

use crate::Run;
use crate::counts::{check, count, taken};
use crate::damage::report_damaged;
use crate::faults::{fault_of, given_balance, given_length, given_room, given_source, spoil};
use crate::output::{show_full, show_started};
use book::start_book;
use kept_spec::{Balance, Stepped};
use numbers::Refusal;
use qlt_spec::FieldLists;
use std::fmt;
use test_support::draws::{draw, more};
use test_support::fields::{fill, fill_parents, nodes};

// The check number with what an accepted step told.
fn taken_step(told: u64, stepped: Stepped) -> u64 {
    let repair = stepped.repair;
    let first = taken(
        taken(told, u64::from(repair.outcome)),
        u64::from(repair.total),
    );
    let second = taken(taken(first, repair.change), repair.shared);
    taken(second, stepped.length as u64)
}

// The run after an accepted call.
fn accepted(run: Run, state: u32, stepped: Stepped) -> Run {
    Run {
        state,
        balance: stepped.balance,
        length: stepped.length,
        accepted: more(run.accepted),
        refused: run.refused,
        told: taken_step(run.told, stepped),
    }
}

// The run after reports of the book in damaged copies, if its length has grown.
fn grown(
    run: Run,
    before: usize,
    buffer: &[u8; 32768],
    copied: &mut [u8; 32768],
    damaged: &mut [u32; 22],
) -> Run {
    if before < run.length {
        return report_damaged(run, buffer, copied, damaged);
    }
    run
}

// The check number with what a refused step told, and with the buffer that it left.
fn taken_refusal(told: u64, refusal: Refusal, buffer: &[u8; 32768]) -> u64 {
    let refused = taken(
        taken(told, u64::from(refusal.number)),
        u64::from(refusal.place),
    );
    taken(refused, check(buffer))
}

// Prints a full book, and starts one from the total standing. Returns the length that stands then.
fn start_anew(
    total: u32,
    length: usize,
    buffer: &mut [u8; 32768],
    counts: &mut [u32; 22],
) -> Result<usize, fmt::Error> {
    show_full(buffer, length)?;
    let started = start_book(total, buffer);
    match started {
        Ok(next) => Ok(next),
        Err(refusal) => {
            show_started(started)?;
            count(refusal.number, counts);
            Ok(length)
        }
    }
}

// The length that stands after a refused call: a full book is replaced.
fn next_length(
    run: Run,
    number: u32,
    buffer: &mut [u8; 32768],
    counts: &mut [u32; 22],
) -> Result<usize, fmt::Error> {
    if number == 21 {
        return start_anew(run.balance.total, run.length, buffer, counts);
    }
    Ok(run.length)
}

// The run after a refused call: the buffer is as it was before the call's fault.
fn refused(
    run: Run,
    state: u32,
    refusal: Refusal,
    buffer: &mut [u8; 32768],
    copied: &[u8; 32768],
    counts: &mut [u32; 22],
) -> Result<Run, fmt::Error> {
    let told = taken_refusal(run.told, refusal, buffer);
    buffer.copy_from_slice(copied);
    count(refusal.number, counts);
    let length = next_length(run, refusal.number, buffer, counts)?;
    Ok(Run {
        state,
        length,
        refused: more(run.refused),
        told,
        ..run
    })
}

// The run after a call.
fn counted(
    run: Run,
    state: u32,
    answer: Result<Stepped, Refusal>,
    buffer: &mut [u8; 32768],
    copied: &mut [u8; 32768],
    counts: &mut [u32; 22],
    damaged: &mut [u32; 22],
) -> Result<Run, fmt::Error> {
    match answer {
        Ok(stepped) => {
            let next = accepted(run, state, stepped);
            Ok(grown(next, run.length, buffer, copied, damaged))
        }
        Err(refusal) => refused(run, state, refusal, buffer, copied, counts),
    }
}

// Steps with a scratch of its own and the first bytes of the buffer.
fn step_by(
    balance: Balance,
    kept: &mut [u32; 8],
    source: i32,
    field: &FieldLists,
    buffer: &mut [u8],
    room: usize,
    told: usize,
) -> Result<Stepped, Refusal>
    requires { (length buffer.old ≡ 32768) × (room ≤ 32768) }
{
    let mut scratch = [0i64; 60];
    kept::step(
        balance,
        kept,
        source,
        20,
        field,
        &mut scratch,
        &mut buffer[..room],
        told,
    )
}

// Draws a field and steps by it.
pub fn one_call(
    run: Run,
    kept: &mut [u32; 8],
    buffer: &mut [u8; 32768],
    copied: &mut [u8; 32768],
    counts: &mut [u32; 22],
    damaged: &mut [u32; 22],
) -> Result<Run, fmt::Error> {
    let kind = draw(run.state, 3);
    let mut targets = [0i32; 8];
    let mut lows = [0u32; 8];
    let mut highs = [0u32; 8];
    let mut safe_lows = [0u32; 8];
    let mut safe_highs = [0u32; 8];
    let mut weights = [0u32; 8];
    let next = fill(
        kind.state,
        kept,
        &mut targets,
        &mut lows,
        &mut highs,
        &mut safe_lows,
        &mut safe_highs,
        &mut weights,
    );
    let source = draw(next, 3001);
    let drawn = draw(source.state, 24);
    let fault = fault_of(drawn.value);
    let mut parents = [0u32; 15];
    fill_parents(kind.value, false, &mut parents);
    copied.copy_from_slice(buffer);
    let state = spoil(drawn.state, fault, run.length, buffer);
    let field = FieldLists {
        targets: &targets,
        lows: &lows,
        highs: &highs,
        safe_lows: &safe_lows,
        safe_highs: &safe_highs,
        weights: &weights,
        parents: &parents[..nodes(kind.value)],
    };
    let answer = step_by(
        given_balance(run.balance, fault),
        kept,
        given_source(source.value, fault),
        &field,
        buffer,
        given_room(fault),
        given_length(run.length, fault),
    );
    counted(run, state, answer, buffer, copied, counts, damaged)
}
