// A test program: prints the report of each field file of data/ in turn. data/ and `stdout` were written by a separate implementation in
// another language, which follows 01's own words with exact whole numbers, and not by this program.
// The files are 000.field, 001.field and so on, up to the first number that is missing. They hold the examples of 01 for fields, fields of
// many shapes in all three outcomes, and files that are refused, by Reconstruct or in reading. Of a file at most 18,433 bytes are read, one
// more than the largest has. The report is written to a buffer of 16,384 bytes: the listing, or the line of the file's refusal. The last
// line is a refusal of the operation itself: file 0 once more, with a buffer that is a byte too short.
// Relies on `report`, which it tests, `text`, `test_support`, and the kit's `io`.
#![tactic(auto)]

use std::fs::File;
use test_support::files::{open_field, read};
use test_support::output::{STANDARD_OUTPUT, show_refusal};

// Reports a file's bytes in a buffer, and prints the text.
fn print_report(file: &[u8], out: &mut [u8]) {
    match report::report(file, out) {
        Ok(k) => {
            io::write_all(STANDARD_OUTPUT, &out[..k]);
        }
        Err(refusal) => {
            show_refusal(refusal);
        }
    }
}

// The same for an open file, with a buffer that has room for every text.
fn print_file(field: Option<File>) {
    let mut file = [0u8; 18433];
    let mut out = [0u8; 16384];
    let n = read(field, &mut file);
    print_report(&file[..n], &mut out);
}

// The same with a buffer that is a byte too short.
fn print_short(field: Option<File>) {
    let mut file = [0u8; 18433];
    let mut out = [0u8; 16383];
    let n = read(field, &mut file);
    print_report(&file[..n], &mut out);
}

// The report of the file with a number. Returns whether there is such a file.
fn run_file(rt: &HostRuntime, number: u64) -> bool {
    let field = open_field(rt, number);
    if field.is_none() {
        return false;
    }
    print_file(field);
    true
}

// The reports of all files.
fn run_all(rt: &HostRuntime) {
    for number in 0..1000 {
        if !run_file(rt, number) {
            return;
        }
    }
}

// All reports, and then file 0 with the short buffer.
fn main(rt: HostRuntime) {
    run_all(&rt);
    print_short(open_field(&rt, 0));
}
