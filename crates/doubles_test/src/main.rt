// A test program: runs Import, Export and Export in binary32 on cases from standard input, and prints a line for each. The file `stdin`
// has the cases; `stdout` was written by an implementation of the papers' own words in another language, and not by this program.
// The input is whole numbers with spaces and line ends between them. A case starts with its kind. 1 is Import: then come the scale and
// the bit patterns of target, low, high, safe low and safe high; each pattern of a NaN stands for the one NaN of the language. 2 is
// Export: then come mass and scale. 3 is Export, and Import at the same scale of the double that it gave, in all five fields: mass and
// scale again. 4 is Export in binary32: mass and scale again. Any other kind is a case by itself. Scales and masses above 4294967295 are
// taken as 4294967295.
// A line has `units` and the five units, `double` or `single` and its bit pattern, or `refused` with number and place. Where the refusal
// carries a double, its bit pattern follows, or `nan`. The cases end with the input, of which at most 65,536 bytes are read.
// Relies on `doubles`, which it tests, `doubles_spec` and `numbers` for the answers, `test_support`, and the kit's `io`.
#![tactic(auto)]

use doubles_spec::{CellDoubles, ImportRefusal};
use numbers::Refusal;
use output::{Double, Single};
use std::fmt;
use std::fmt::Write;
use test_support::input::STANDARD_INPUT;
use test_support::output::Output;
use test_support::reader::Reader;

mod input;
mod output;

// Prints what Import answers. A refused scale is 01's number 9 at place 0; a field's refusal carries its double.
fn show_import(cell: CellDoubles, scale: u32) -> fmt::Result {
    match doubles::import(cell, scale) {
        Ok(units) => writeln!(
            Output,
            "units {} {} {} {} {}",
            units.target, units.low, units.high, units.safe_low, units.safe_high
        ),
        Err(ImportRefusal::Scale) => writeln!(
            Output,
            "{}",
            Refusal {
                number: 9,
                place: 0
            }
        ),
        Err(
            ImportRefusal::Double {
                number,
                field,
                double,
            },
        ) => writeln!(Output, "refused {number} {field} {}", Double(double)),
    }
}

// Runs Import on the numbers that stand next.
fn run_import(reader: &mut Reader) -> fmt::Result {
    let scale = input::word(reader);
    let cell = input::cell(reader);
    show_import(cell, scale)
}

// The same for Export.
fn run_export(reader: &mut Reader) -> fmt::Result {
    let mass = input::word(reader);
    match doubles::export(mass, input::word(reader)) {
        Ok(x) => writeln!(Output, "double {}", Double(x)),
        Err(refusal) => writeln!(Output, "{refusal}"),
    }
}

// The same for Export in binary32.
fn run_export_single(reader: &mut Reader) -> fmt::Result {
    let mass = input::word(reader);
    match doubles::export_single(mass, input::word(reader)) {
        Ok(x) => writeln!(Output, "single {}", Single(x)),
        Err(refusal) => writeln!(Output, "{refusal}"),
    }
}

// The same for Export, and Import of the double in all five fields.
fn run_both(reader: &mut Reader) -> fmt::Result {
    let mass = input::word(reader);
    let scale = input::word(reader);
    match doubles::export(mass, scale) {
        Ok(x) => {
            let cell = CellDoubles {
                target: x,
                low: x,
                high: x,
                safe_low: x,
                safe_high: x,
            };
            show_import(cell, scale)
        }
        Err(refusal) => writeln!(Output, "{refusal}"),
    }
}

// Runs the case that stands next.
fn run_case(reader: &mut Reader) -> fmt::Result {
    match reader.unsigned() {
        1 => run_import(reader)?,
        2 => run_export(reader)?,
        3 => run_both(reader)?,
        4 => run_export_single(reader)?,
        _ => writeln!(Output, "no such kind")?,
    }
    reader.skip();
    Ok(())
}

// Runs the cases of a text. There are no more of them than bytes.
fn run_all(text: &[u8]) -> fmt::Result {
    let mut reader = Reader::new(text);
    for _ in 0..text.len() {
        if !reader.begin_case() {
            break;
        }
        run_case(&mut reader)?;
    }
    Ok(())
}

// Reads the input, and runs its cases.
fn main() {
    let mut space = io::large_buffer();
    let n = io::read_full(STANDARD_INPUT, &mut space);
    let _ = run_all(&space[..n]);
}
