// A test program: runs Split on cases from standard input, and prints a line for each. The file `stdin` has the cases; `stdout` was
// written by an implementation of the papers' own words in another language, and not by this program.
// The input is whole numbers with spaces and line ends between them. A case is six numbers, the lengths of the lists of targets, lows,
// highs, weights and masses (below 0 is taken as 0, above 600 as 600) and the total; then come the targets, lows, highs and weights.
// Before the call each mass is 7. A line has `done` with d, or `refused` with number and place, and then the masses as the call left them:
// up to 16 of them, or of more their sum and a check number. The cases end with the input, of which at most 65,536 bytes are read.
// Relies on `split`, which it tests, `test_support`, `numbers`, and the kit's `io`.
#![tactic(auto)]

ghost use Rattle.std.specs.Prelude.{◌+◌, ◌≤◌, length};

use input::Case;
use numbers::Refusal;
use output::Masses;
use std::fmt;
use std::fmt::Write;
use test_support::input::STANDARD_INPUT;
use test_support::output::Output;
use test_support::reader::Reader;

mod input;
mod output;

// Calls Split on the lists of a case, which stand in `values` one behind the other.
fn call(case: Case, values: &[i64], masses: &mut [i64]) -> Result<i64, Refusal>
    requires { case.targets + case.lows + case.highs + case.weights ≤ length values.now }
{
    let low = case.targets;
    let high = low + case.lows;
    let weight = high + case.highs;
    let end = weight + case.weights;
    split::split(
        &values[..low],
        &values[low..high],
        &values[high..weight],
        &values[weight..end],
        case.total,
        masses,
    )
}

// Runs the case that stands next, and prints its line.
fn run_case(reader: &mut Reader) -> fmt::Result {
    let case = input::read_case(reader);
    let n = case.targets + case.lows + case.highs + case.weights;
    let mut values = [0i64; 2400];
    input::fill(reader, &mut values[..n]);
    reader.skip();
    let mut space = [7i64; 600];
    let masses = &mut space[..case.masses];
    match call(case, &values, masses) {
        Ok(deficit) => writeln!(Output, "done {deficit}{}", Masses(masses)),
        Err(refusal) => writeln!(Output, "{refusal}{}", Masses(masses)),
    }
}

// Runs the cases of a text. There are no more of them than bytes.
fn run_all(text: &[u8]) -> fmt::Result {
    let mut reader = Reader::new(text);
    for _ in 0..text.len() {
        if !reader.begin_case() {
            break;
        }
        run_case(&mut reader)?;
    }
    Ok(())
}

// Reads the input, and runs its cases.
fn main() {
    let mut space = io::large_buffer();
    let n = io::read_full(STANDARD_INPUT, &mut space);
    let _ = run_all(&space[..n]);
}
