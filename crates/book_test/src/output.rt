// The lines of text.
ghost use Rattle.io.specs.Counts.{IsPrefixLen};

use crate::Run;
use crate::buffer::blocks_of;
use crate::counts::check;
use book_report::report_book;
use numbers::Refusal;
use numbers::lists::sum_of;
use std::fmt;
use std::fmt::Write;
use test_support::output::{Output, STANDARD_OUTPUT};

// Puts the report of a book at the front of `out`, and returns its length.
pub fn put_report(file: &[u8], out: &mut [u8; 128]) -> usize
    ensures { IsPrefixLen result out.new }
{
    match report_book(file, out) {
        Ok(k) => k,
        Err(_) => 0,
    }
}

// The report of the book with so many bytes.
pub fn show_report(buffer: &[u8; 32768], length: usize) {
    let mut out = [0u8; 128];
    let k = put_report(&buffer[..512 * blocks_of(length)], &mut out);
    io::write_all(STANDARD_OUTPUT, &out[..k]);
}

// What a start gave.
pub fn show_started(started: Result<usize, Refusal>) -> fmt::Result {
    match started {
        Ok(length) => writeln!(Output, "start {length}"),
        Err(refusal) => writeln!(Output, "start refused {}", refusal.number),
    }
}

// The line of a full book.
pub fn show_full(buffer: &[u8; 32768], length: usize) -> fmt::Result {
    write!(Output, "full length {length} ")?;
    show_report(buffer, length);
    Ok(())
}

// The lines of a run: the calls, those accepted and refused, the total standing, the sum of the masses, the book's length, the check numbers
// of the buffer and of what was told; and the book's report.
pub fn show(calls: u64, run: Run, kept: &[u32; 8], buffer: &[u8; 32768]) -> fmt::Result {
    let sum = sum_of(kept);
    let whole = check(buffer);
    write!(
        Output,
        "calls {calls} accepted {} refused {} total {} sum {sum}",
        run.accepted, run.refused, run.balance.total
    )?;
    writeln!(
        Output,
        " length {} check {whole} told {}",
        run.length, run.told
    )?;
    show_report(buffer, run.length);
    Ok(())
}

// A line for each number that was counted.
pub fn show_counts(name: &str, counts: &[u32; 22]) -> fmt::Result {
    for (number, times) in counts.iter().enumerate() {
        if 0 < *times {
            writeln!(Output, "{name} {number} times {times}")?;
        }
    }
    Ok(())
}
