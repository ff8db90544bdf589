// The line for a book. No line has more than 128 bytes.
ghost use Rattle.std.specs.Prelude.{◌≤◌, length};
ghost use Rattle.text.specs.Text.{Put};
ghost use Rattle.book_report.specs.Report.{book_line, book_text};

use book::read_book;
use book_spec::BookReport;
use text::pieces::{put_named, put_refusal};

// The line of a report.
fn put_line(out: &mut [u8], report: BookReport) -> usize
    requires { 128 ≤ length out.old }
    ensures { Put out.old out.new 0 result (book_line report) × (result ≤ 128) }
{
    let a = put_named(out, 0, b"opening ", u64::from(report.opening), b' ');
    let b = put_named(out, a, b"in ", report.inflow, b' ');
    let c = put_named(out, b, b"out ", report.outflow, b' ');
    put_named(out, c, b"closing ", u64::from(report.closing), b'\n')
}

// Puts the line for a file at the front of `out` and returns its length.
pub fn put_report(file: &[u8], out: &mut [u8]) -> usize
    requires { 128 ≤ length out.old }
    ensures { Put out.old out.new 0 result (book_text file.now) × (result ≤ 128) }
{
    match read_book(file) {
        Err(refusal) => put_refusal(out, refusal, b'\n'),
        Ok(report) => put_line(out, report),
    }
}
