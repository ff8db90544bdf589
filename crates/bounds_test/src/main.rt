// A test program: runs Bounds on cases from standard input, and a step of a field with the bounds made. The file `stdin` has the cases;
// `stdout` was written by an implementation of the papers' own words in another language, and not by this program.
// The input is whole numbers with spaces and line ends between them. A case is eight numbers: the lengths of the lists of air masses, low
// ratios, high ratios, lows, highs, safe lows and safe highs, and a source. A length below 0 is taken as 0, and one above 600 as 600. Then come
// the air masses, the low ratios, the high ratios, and as many targets as air masses, each list in runs as `test_support` reads them. A number
// beyond its range, signed of 32 bits for the targets and the source, else unsigned, is taken as the end of it. Before the call each bound is 7.
// A line has `done`, or `refused` with number and place, and then the four lists of bounds as the call left them: of each up to 16 numbers, or
// of more their sum and a check number. After a call that was done comes the line of a step: it has kept masses of 0 at scale 0, the source and
// the targets of the case, the bounds made, weights of 1, one root above all cells, and a book without records. It has `step`, `done` with outcome, total, change and the
// sum shared out, or `refused` with number and place, and the kept masses as the call left them. The cases end with the input, of which at most
// 65,536 bytes are read.
// Relies on `bounds`, which it tests, and `kept`, `bounds_spec`, `kept_spec` and `qlt_spec` for the answers, `test_support`, `numbers`, and the
// kit's `io`.
#![tactic(auto)]

ghost use Rattle.std.specs.Prelude.{◌≤◌, length};

use kept_spec::Balance;
use qlt_spec::{FieldLists, SCRATCH_PER_NODE};
use std::fmt;
use std::fmt::Write;
use test_support::books::start;
use test_support::input::STANDARD_INPUT;
use test_support::output::{Masses, Output};
use test_support::reader::{Reader, target, word};

mod input;

// Steps kept masses of 0, which have total 0 at scale 0, with the bounds made, weights of 1, one root above all cells, and a book that opens
// with that total. Prints the line.
fn step(
    source: i32,
    targets: &[i32],
    lows: &[u32],
    highs: &[u32],
    safe_lows: &[u32],
    safe_highs: &[u32],
) -> fmt::Result
    requires { length targets.now ≤ 600 }
{
    let n = targets.len();
    let weights = [1u32; 600];
    let parents = [n as u32; 601];
    let mut masses = [0u32; 600];
    let kept = &mut masses[..n];
    let mut scratch = [0i64; 2404];
    let mut book = [0u8; 32768];
    let told = start(0, &mut book);
    let field = FieldLists {
        targets,
        lows,
        highs,
        safe_lows,
        safe_highs,
        weights: &weights[..n],
        parents: &parents[..n + 1],
    };
    let answer = kept::step(
        Balance { total: 0, scale: 0 },
        kept,
        source,
        0,
        &field,
        &mut scratch[..SCRATCH_PER_NODE * (n + 1)],
        &mut book,
        told,
    );
    match answer {
        Ok(stepped) => {
            let repair = stepped.repair;
            writeln!(
                Output,
                "step done {} {} {} {}{}",
                repair.outcome,
                repair.total,
                repair.change,
                repair.shared,
                Masses(kept)
            )
        }
        Err(refusal) => writeln!(Output, "step {refusal}{}", Masses(kept)),
    }
}

// Calls Bounds and prints its line, and that of the step if the call was done. The lists are those of the case alone.
fn run_lists(
    source: i32,
    air: &[u32],
    low_ratios: &[u32],
    high_ratios: &[u32],
    targets: &[i32],
    lows: &mut [u32],
    highs: &mut [u32],
    safe_lows: &mut [u32],
    safe_highs: &mut [u32],
) -> fmt::Result
    requires { length targets.now ≤ 600 }
{
    let answer = bounds::bounds(
        air,
        low_ratios,
        high_ratios,
        lows,
        highs,
        safe_lows,
        safe_highs,
    );
    match answer {
        Ok(()) => write!(Output, "done")?,
        Err(refusal) => write!(Output, "{refusal}")?,
    }
    writeln!(
        Output,
        " lows{} highs{} safe-lows{} safe-highs{}",
        Masses(lows),
        Masses(highs),
        Masses(safe_lows),
        Masses(safe_highs)
    )?;
    if answer.is_err() {
        return Ok(());
    }
    step(source, targets, lows, highs, safe_lows, safe_highs)
}

// Runs the case that stands next.
fn run_case(reader: &mut Reader) -> fmt::Result {
    let case = input::read_case(reader);
    let mut air = [0u32; 600];
    reader.fill_runs(&mut air[..case.air], word);
    let mut low_ratios = [0u32; 600];
    reader.fill_runs(&mut low_ratios[..case.low_ratios], word);
    let mut high_ratios = [0u32; 600];
    reader.fill_runs(&mut high_ratios[..case.high_ratios], word);
    let mut targets = [0i32; 600];
    reader.fill_runs(&mut targets[..case.air], target);
    reader.skip();
    let mut lows = [7u32; 600];
    let mut highs = [7u32; 600];
    let mut safe_lows = [7u32; 600];
    let mut safe_highs = [7u32; 600];
    run_lists(
        case.source,
        &air[..case.air],
        &low_ratios[..case.low_ratios],
        &high_ratios[..case.high_ratios],
        &targets[..case.air],
        &mut lows[..case.lows],
        &mut highs[..case.highs],
        &mut safe_lows[..case.safe_lows],
        &mut safe_highs[..case.safe_highs],
    )
}

// Runs the cases of a text. There are no more of them than bytes.
fn run_all(text: &[u8]) -> fmt::Result {
    let mut reader = Reader::new(text);
    for _ in 0..text.len() {
        if !reader.begin_case() {
            break;
        }
        run_case(&mut reader)?;
    }
    Ok(())
}

// Reads the input, and runs its cases.
fn main() {
    let mut space = io::large_buffer();
    let n = io::read_full(STANDARD_INPUT, &mut space);
    let _ = run_all(&space[..n]);
}
