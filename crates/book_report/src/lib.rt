// The operation Report of a book: the line that the program prints for a source book (02, ticket 12). Public: `report_book`; the work below
// it is in a module of its own, for this crate alone. Relies on `book`, `book_spec`, `text`, `blocks` and `numbers`.
#![tactic(auto)]

ghost use Rattle.book_report.specs.Report.{BookReportContract};

use numbers::Refusal;
use text::pieces::put_front;

mod work;

// Writes the line for a book to the front of `out`: what it opens with, the sums in and out, and what it closes with; or its refusal. `out`
// needs 128 bytes; a shorter one is refused with 3 and left as it was.
pub fn report_book(file: &[u8], out: &mut [u8]) -> Result<usize, Refusal>
    ensures { BookReportContract file.now out.old result out.new }
{
    let mut text = [0u8; 128];
    let n = work::put_report(file, &mut text);
    put_front(out, &text[..n], 128)
}
