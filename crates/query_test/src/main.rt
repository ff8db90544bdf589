// A test program: runs Query, and the reading of a tool's argument, on cases from standard input. The file `stdin` has the cases, and
// data/ the field files, sound and damaged; `stdout` was written by an implementation of the papers' own words in another language, and
// not by this program.
// The input is whole numbers with spaces and line ends between them. A case starts with its kind; then come
// - for 1, Query: the number of a file of data/, whose name has its three digits and `.field`, the cell, and the length of the lent buffer
//   (above 256 is taken as 256). A file that is missing is told in a line, and taken as empty; of one that is there at most 18,433 bytes
//   are read, one more than the largest has. The text is printed as it is; if the operation refuses, `refused` with number and place;
// - for 2, an argument: a number of bytes, one byte that is passed over, and then the argument's bytes as they are, fewer if the input
//   ends before. `argument` and the number are printed.
// Any other kind is a case by itself. The cases end with the input, of which at most 65,536 bytes are read.
// Relies on `query` and `arguments`, which it tests, `text`, `test_support`, and the kit's `io`.
#![tactic(auto)]

ghost use Rattle.std.specs.Prelude.{◌≤◌, length};

use test_support::files::{load, open_field};
use test_support::input::{STANDARD_INPUT, read_unsigned, skip};
use test_support::output::{STANDARD_OUTPUT, end_line, print_named, show_no_kind, show_refusal};

// Queries a cell in a buffer, and prints the text.
fn print_query(file: &[u8], cell: usize, out: &mut [u8]) {
    match query::query(file, cell, out) {
        Ok(k) => {
            io::write_all(STANDARD_OUTPUT, &out[..k]);
        }
        Err(refusal) => {
            show_refusal(refusal);
        }
    }
}

// The same in the first `room` bytes of a buffer.
fn print_within(file: &[u8], cell: usize, out: &mut [u8], room: usize)
    requires { room ≤ length out.old }
{
    print_query(file, cell, &mut out[..room]);
}

// Runs Query on the case whose numbers start at `at`. Returns the position behind them.
fn run_query(rt: &HostRuntime, text: &[u8], at: usize) -> usize
    requires { at ≤ length text.now }
    ensures { result ≤ length text.now }
{
    let number = read_unsigned(text, at);
    let cell = read_unsigned(text, number.next);
    let room = read_unsigned(text, cell.next);
    let mut file = [0u8; 18433];
    let n = load(open_field(rt, number.value), &mut file);
    let mut out = [9u8; 256];
    print_within(
        &file[..n],
        cell.value as usize,
        &mut out,
        room.value.min(256) as usize,
    );
    room.next
}

// Runs the reading of an argument likewise.
fn run_argument(text: &[u8], at: usize) -> usize
    requires { at ≤ length text.now }
    ensures { result ≤ length text.now }
{
    let count = read_unsigned(text, at);
    let from = (count.next + 1).min(text.len());
    let end = from + (count.value as usize).min(text.len() - from);
    print_named(
        b"argument",
        u64::from(arguments::number_of(&text[from..end])),
    );
    end_line();
    end
}

// Runs the case that starts at `at`. Returns where the next may start.
fn run_case(rt: &HostRuntime, text: &[u8], at: usize) -> usize
    requires { at ≤ length text.now }
{
    let kind = read_unsigned(text, at);
    let next = match kind.value {
        1 => run_query(rt, text, kind.next),
        2 => run_argument(text, kind.next),
        _ => {
            show_no_kind();
            kind.next
        }
    };
    skip(text, next)
}

// Runs all cases. Each takes at least a byte, so that the loop ends whatever the bytes are.
fn run_all(rt: &HostRuntime, text: &[u8]) {
    let mut at = skip(text, 0);
    while at < text.len() {
        at = run_case(rt, text, at).max(at + 1);
    }
}

// Reads the input, and runs its cases.
fn main(rt: HostRuntime) {
    let mut space = io::large_buffer();
    let n = io::read_full(STANDARD_INPUT, &mut space);
    run_all(&rt, &space[..n]);
}
