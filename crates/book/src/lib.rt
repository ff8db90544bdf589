// The source book (02, ticket 12): starting one, reading one, and what a step does with its own. Public: `start_book`, `read_book`; for the
// crates above `lent`, the book that a step is lent. The checks of a block and of a whole book, what a book holds, and the writing of a block
// are in modules of their own, for this crate alone. Relies on `book_spec`, `blocks` and `numbers`.
#![tactic(auto)]

ghost use Rattle.book_spec.specs.ReadBook.{BookReadContract};
ghost use Rattle.book_spec.specs.StartBook.{BookStartContract};

use book_spec::BookReport;
use numbers::Refusal;

mod block;
pub mod lent;
mod record;
mod report;
mod verdict;

// Writes a book without records, which opens with the total, to the front of the buffer, and returns its length, 512. The buffer needs room
// for a full book, 32768 bytes. A refused call writes nothing.
pub fn start_book(total: u32, buffer: &mut [u8]) -> Result<usize, Refusal>
    ensures { BookStartContract total buffer.old result buffer.new }
{
    verdict::start_verdict(total, buffer)?;
    record::put_empty(buffer, total);
    Ok(512)
}

// Reads a book, alone in a file, and returns its report.
pub fn read_book(file: &[u8]) -> Result<BookReport, Refusal>
    ensures { BookReadContract file.now result }
{
    verdict::book_verdict(file)?;
    Ok(report::report(file))
}
