// A test program: runs Read a field file, Write an answer, Payload, Write a field and Read an answer on cases from standard input, and
// prints a line for each. The file `stdin` has the cases, and data/ the field files and answer files, sound and damaged; `stdout` was
// written by an implementation of the papers' own words in another language, and not by this program.
// The input is whole numbers with spaces and line ends between them. A case starts with its kind; then come
// - for 1, Read a field file: the number of a file of data/, whose name has its three digits and `.field`, and the lengths of the lent
//   lists of targets, lows, highs, safe lows, safe highs, weights (each above 520 is taken as 520) and parents (above 1,030 is taken as
//   1,030). Before the call each entry is 7. A file that is missing is told in a line, and taken as empty;
// - for 2, Write an answer: the cells, the outcome, the total, the change, the sum shared out, the length of the list of masses (above
//   600 is taken as 600), that of the buffer (above 4,096 is taken as 4,096), and three numbers that give the masses, first, step and
//   modulus: mass 0 is first mod modulus, and each later one is the sum of the mass before it and step, mod modulus. A modulus of 0 is
//   taken as 1, and one above 4294967296 as that. Before the call each byte of the buffer is 9;
// - for 3, Payload: the number of a field file and that of a block;
// - for 4, Write a field: the cells, the nodes, the total, the seven lengths of 1, that of the buffer (above 20,000 is taken as 20,000),
//   and first, step and modulus: list j of the seven, from 0, goes by the rule of 2 with first + j, and a target is what its number stands
//   for in two's complement. Before the call each byte of the buffer is 9;
// - for 5, Read an answer: the number of a file as in 1, with `.answer`, and the length of the list of masses (above 600 is taken as
//   600). Before the call each entry is 7.
// Any other kind is a case by itself. Outcomes, totals and steps above 4294967295 are taken as 4294967295.
// A line has `read` with n, m and M, or of an answer with n, the outcome, M, the change and the sum shared out, which an older file shows
// as 0; `bytes` and the file's length; or `refused` with number and place. Then comes, for each lent list that may be written, in the
// order above, a check number of all its entries, with those past the field or the file. Of a payload it has `payload`, its length and its
// check number. The cases end with the input, of which at most 65,536 bytes are read.
// Relies on `field_file`, `answer_file` and `blocks`, which it tests, `files_spec` for the answers, `qlt_spec`, `test_support`, `numbers`,
// and the kit's `io`.
#![tactic(auto)]

use input::Space;
use qlt_spec::FieldLists;
use std::fmt;
use std::fmt::Write;
use std::fs::File;
use test_support::files::{last_digit, load, open, open_field};
use test_support::input::STANDARD_INPUT;
use test_support::output::Output;
use test_support::reader::Reader;

mod input;
mod output;

// Opens an answer file of data/ by its number.
fn open_answer(rt: &HostRuntime, number: u64) -> Option<File> {
    let name = [
        last_digit(number / 100),
        last_digit(number / 10),
        last_digit(number),
        b'.',
        b'a',
        b'n',
        b's',
        b'w',
        b'e',
        b'r',
    ];
    open(rt, &name)
}

// Runs Read a field file on the case that stands next, and prints its line.
fn run_read(rt: &HostRuntime, reader: &mut Reader) -> fmt::Result {
    let number = reader.unsigned();
    let lengths = input::read_lengths(reader);
    let mut file = [0; 20000];
    let n = load(open_field(rt, number), &mut file);
    let mut space = Space::new(7, 7);
    let targets = &mut space.targets[..lengths.targets];
    let lows = &mut space.lows[..lengths.lows];
    let highs = &mut space.highs[..lengths.highs];
    let safe_lows = &mut space.safe_lows[..lengths.safe_lows];
    let safe_highs = &mut space.safe_highs[..lengths.safe_highs];
    let weights = &mut space.weights[..lengths.weights];
    let parents = &mut space.parents[..lengths.parents];
    let answer = field_file::read_field(
        &file[..n],
        targets,
        lows,
        highs,
        safe_lows,
        safe_highs,
        weights,
        parents,
    );
    match answer {
        Ok(sizes) => write!(
            Output,
            "read {} {} {}",
            sizes.cells, sizes.nodes, sizes.total
        )?,
        Err(refusal) => write!(Output, "{refusal}")?,
    }
    output::print_targets(targets)?;
    output::print_list(lows)?;
    output::print_list(highs)?;
    output::print_list(safe_lows)?;
    output::print_list(safe_highs)?;
    output::print_list(weights)?;
    output::print_list(parents)?;
    writeln!(Output)
}

// The same for Write an answer.
fn run_write(reader: &mut Reader) -> fmt::Result {
    let case = input::read_write(reader);
    let mut masses = [0; 600];
    case.rule.fill(0, &mut masses, |x| x);
    let mut buffer = [9; 4096];
    let buffer = &mut buffer[..case.buffer];
    let answer = answer_file::write_answer(case.cells, case.repair, &masses[..case.masses], buffer);
    output::print_written(answer, buffer)
}

// The same for Payload.
fn run_payload(rt: &HostRuntime, reader: &mut Reader) -> fmt::Result {
    let number = reader.unsigned();
    let block = reader.unsigned() as usize;
    let mut file = [0; 20000];
    let n = load(open_field(rt, number), &mut file);
    let part = blocks::payload(&file[..n], block);
    write!(Output, "payload {}", part.len())?;
    output::print_bytes(part)?;
    writeln!(Output)
}

// The same for Write a field.
fn run_field(reader: &mut Reader) -> fmt::Result {
    let case = input::read_field_case(reader);
    let mut space = Space::new(0, 0);
    space.fill(case.rule);
    let field = FieldLists {
        targets: &space.targets[..case.lengths.targets],
        lows: &space.lows[..case.lengths.lows],
        highs: &space.highs[..case.lengths.highs],
        safe_lows: &space.safe_lows[..case.lengths.safe_lows],
        safe_highs: &space.safe_highs[..case.lengths.safe_highs],
        weights: &space.weights[..case.lengths.weights],
        parents: &space.parents[..case.lengths.parents],
    };
    let mut buffer = [9; 20000];
    let buffer = &mut buffer[..case.buffer];
    let answer = field_file::write_field(case.cells, case.nodes, case.total, &field, buffer);
    output::print_written(answer, buffer)
}

// The same for Read an answer.
fn run_answer(rt: &HostRuntime, reader: &mut Reader) -> fmt::Result {
    let number = reader.unsigned();
    let room = input::read_length(reader, 600);
    let mut file = [0; 20000];
    let n = load(open_answer(rt, number), &mut file);
    let mut masses = [7; 600];
    let masses = &mut masses[..room];
    match answer_file::read_answer(&file[..n], masses) {
        Ok(told) => write!(
            Output,
            "read {} {} {} {} {}",
            told.cells,
            told.repair.outcome,
            told.repair.total,
            told.repair.change,
            told.repair.shared
        )?,
        Err(refusal) => write!(Output, "{refusal}")?,
    }
    output::print_list(masses)?;
    writeln!(Output)
}

// Runs the case that stands next.
fn run_case(rt: &HostRuntime, reader: &mut Reader) -> fmt::Result {
    match reader.unsigned() {
        1 => run_read(rt, reader),
        2 => run_write(reader),
        3 => run_payload(rt, reader),
        4 => run_field(reader),
        5 => run_answer(rt, reader),
        _ => writeln!(Output, "no such kind"),
    }
}

// Runs the cases of a text. There are no more of them than bytes.
fn run_all(rt: &HostRuntime, text: &[u8]) -> fmt::Result {
    let mut reader = Reader::new(text);
    for _ in 0..text.len() {
        if !reader.begin_case() {
            break;
        }
        run_case(rt, &mut reader)?;
        reader.skip();
    }
    Ok(())
}

// Reads the input, and runs its cases.
fn main(rt: HostRuntime) {
    let mut space = io::large_buffer();
    let n = io::read_full(STANDARD_INPUT, &mut space);
    let _ = run_all(&rt, &space[..n]);
}
