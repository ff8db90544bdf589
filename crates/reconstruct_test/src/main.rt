// A test program: runs Reconstruct on cases from standard input, and prints a line for each. The file `stdin` has the cases; `stdout`
// was written by an implementation of the papers' own words in another language, and not by this program.
// The input is whole numbers with spaces and line ends between them. A case is ten numbers: the lengths of the lists of targets, lows,
// highs, safe lows, safe highs, weights, parents and masses and of the scratch, and the total. A length below 0 is taken as 0, and one
// above 600, of the parents 1,100 and of the scratch 6,600, as that. Then come the targets, lows, highs, safe lows, safe highs, weights
// and parents. Each list is given in runs, a count and a number that stands that many times, until it is full; a count below 1 is taken
// as 1. A number beyond the range of its list is taken as the end of that range. Before the call each mass is 7 and each number of the
// scratch 5.
// A line has `done` with outcome, total, change and the sum shared out, or `refused` with number and place; then the masses as the call
// left them, up to 16 of them, or of more their sum and a check number; then `scratch`, how many of its first 4 × m numbers are 0, how
// many of the later ones are still 5, and how many of the first. The cases end with the input, of which at most 65,536 bytes are read.
// Relies on `reconstruct`, which it tests, `qlt_spec` and `numbers` for the answer, `test_support`, and the kit's `io`.
#![tactic(auto)]

use input::read_case;
use output::{Answer, count};
use qlt_spec::{FieldLists, SCRATCH_PER_NODE};
use std::fmt;
use std::fmt::Write;
use test_support::input::STANDARD_INPUT;
use test_support::output::{Masses, Output};
use test_support::reader::{Reader, target, word};

mod input;
mod output;

// Runs the case that stands next, and prints its line.
fn run_case(reader: &mut Reader) -> fmt::Result {
    let case = read_case(reader);
    let mut targets = [0i32; 600];
    let mut lows = [0u32; 600];
    let mut highs = [0u32; 600];
    let mut safe_lows = [0u32; 600];
    let mut safe_highs = [0u32; 600];
    let mut weights = [0u32; 600];
    let mut parents = [0u32; 1100];
    reader.fill_runs(&mut targets[..case.targets], target);
    reader.fill_runs(&mut lows[..case.lows], word);
    reader.fill_runs(&mut highs[..case.highs], word);
    reader.fill_runs(&mut safe_lows[..case.safe_lows], word);
    reader.fill_runs(&mut safe_highs[..case.safe_highs], word);
    reader.fill_runs(&mut weights[..case.weights], word);
    reader.fill_runs(&mut parents[..case.parents], word);
    reader.skip();
    let field = FieldLists {
        targets: &targets[..case.targets],
        lows: &lows[..case.lows],
        highs: &highs[..case.highs],
        safe_lows: &safe_lows[..case.safe_lows],
        safe_highs: &safe_highs[..case.safe_highs],
        weights: &weights[..case.weights],
        parents: &parents[..case.parents],
    };
    let mut masses = [7u32; 600];
    let mut scratch = [5i64; 6600];
    let answer = reconstruct::reconstruct(
        &field,
        case.total,
        &mut masses[..case.masses],
        &mut scratch[..case.scratch],
    );
    let end = (SCRATCH_PER_NODE * case.parents).min(case.scratch);
    writeln!(
        Output,
        "{}{} scratch {} {} {}",
        Answer(answer),
        Masses(&masses[..case.masses]),
        count(&scratch[..end], 0),
        count(&scratch[end..case.scratch], 5),
        count(&scratch[..end], 5)
    )
}

// Runs the cases of a text. There are no more of them than bytes.
fn run_all(text: &[u8]) -> fmt::Result {
    let mut reader = Reader::new(text);
    for _ in 0..text.len() {
        if !reader.begin_case() {
            break;
        }
        run_case(&mut reader)?;
    }
    Ok(())
}

// Reads the input, and runs its cases.
fn main() {
    let mut space = io::large_buffer();
    let n = io::read_full(STANDARD_INPUT, &mut space);
    let _ = run_all(&space[..n]);
}
