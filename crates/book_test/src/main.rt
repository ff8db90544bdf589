// A test program: the source book of a kept field. It makes two starts that are refused and one that is accepted, opens 8 cells at scale 20,
// and makes 15,000 Step calls with fields drawn by a generator, some with a fault: of the source, of the balance, of the book's length or
// buffer, or of a byte or a word of the book. A full book is printed and replaced by one from the total standing. The first book as it is
// started, and every book that a step has added a block to, is reported in 13 copies: two cut short, ten with a byte or words changed, and one
// as it is. It prints two lines every 500 calls: the calls accepted and refused, the total standing, the sum of the kept masses, the book's
// length, a check number of the whole buffer, and one of all that was told, with the buffer after every refused call and the text of every
// report of a copy; and the book's report. At the end it prints how many calls and how many copies were refused with each number; a copy that
// is in order counts as 0. In every line the sum must be the total, and the report must close with it. `stdout` was written by an
// implementation of the papers' own words in another language, and not by this program. Numbers stay far below the remainders by which overflow
// is ruled out.
// Relies on `kept`, `book` and `book_report`, which it tests, `kept_spec`, `book_spec`, `qlt_spec` and `text` for what it lends and is told, `blocks` to damage a book,
// `test_support`, `numbers`, and the kit's `io`.
#![tactic(auto)]

ghost use Rattle.std.specs.Prelude.{◌≤◌, length};

use book::start_book;
use calls::one_call;
use damage::report_damaged;
use kept_spec::Balance;
use numbers::Refusal;
use std::fmt;
use std::fmt::Write;
use test_support::output::Output;

mod buffer;
mod calls;
mod counts;
mod damage;
mod faults;
mod output;

// The generator's state, the balance and the book's length standing, the calls accepted and refused so far, and the check number of what was
// told.
#[derive(Clone, Copy)]
pub struct Run {
    pub state: u32,
    pub balance: Balance,
    pub length: usize,
    pub accepted: u32,
    pub refused: u32,
    pub told: u64,
}

// Makes 500 calls.
fn some_calls(
    run: Run,
    kept: &mut [u32; 8],
    buffer: &mut [u8; 32768],
    copied: &mut [u8; 32768],
    counts: &mut [u32; 22],
    damaged: &mut [u32; 22],
) -> Result<Run, fmt::Error> {
    let mut now = run;
    for _ in 0..500 {
        now = one_call(now, kept, buffer, copied, counts, damaged)?;
    }
    Ok(now)
}

// Makes 30 times 500 calls, and prints the lines after each 500.
fn all_calls(
    run: Run,
    kept: &mut [u32; 8],
    buffer: &mut [u8; 32768],
    copied: &mut [u8; 32768],
    counts: &mut [u32; 22],
    damaged: &mut [u32; 22],
) -> fmt::Result {
    let mut now = run;
    for i in 1..31 {
        now = some_calls(now, kept, buffer, copied, counts, damaged)?;
        output::show(i * 500, now, kept, buffer)?;
    }
    Ok(())
}

// Makes all calls with the book that was started, and prints the counts.
fn run_all(balance: Balance, length: usize, buffer: &mut [u8; 32768]) -> fmt::Result {
    let mut copied = [0u8; 32768];
    let mut kept = [1000u32; 8];
    let mut counts = [0u32; 22];
    let mut damaged = [0u32; 22];
    let first = Run {
        state: 1,
        balance,
        length,
        accepted: 0,
        refused: 0,
        told: 0,
    };
    let run = report_damaged(first, buffer, &mut copied, &mut damaged);
    all_calls(
        run,
        &mut kept,
        buffer,
        &mut copied,
        &mut counts,
        &mut damaged,
    )?;
    output::show_counts("refused", &counts)?;
    output::show_counts("damaged", &damaged)
}

// Opens the field, and makes all calls.
fn open_all(length: usize, buffer: &mut [u8; 32768]) -> fmt::Result {
    let kept = [1000u32; 8];
    match kept::open(&kept, 20) {
        Ok(balance) => run_all(balance, length, buffer),
        Err(refusal) => writeln!(Output, "open refused {}", refusal.number),
    }
}

// Starts a book in the first bytes of the buffer, and prints what the start gave.
fn show_start(
    total: u32,
    buffer: &mut [u8],
    room: usize,
) -> Result<Result<usize, Refusal>, fmt::Error>
    requires { room ≤ length buffer.old }
{
    let started = start_book(total, &mut buffer[..room]);
    output::show_started(started)?;
    Ok(started)
}

// Makes the starts, and the calls from the last one if it is accepted.
fn make_starts() -> fmt::Result {
    let mut buffer = [170u8; 32768];
    let _ = show_start(8000, &mut buffer, 32767)?;
    let _ = show_start(2147483648, &mut buffer, 32768)?;
    if let Ok(length) = show_start(8000, &mut buffer, 32768)? {
        open_all(length, &mut buffer)?;
    }
    Ok(())
}

fn main() {
    let _ = make_starts();
}
