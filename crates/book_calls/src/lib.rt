// The calls from C on books; `legzhuro_c` exports them, and returns their verdicts as numbers. Public: `start`, `report`. The values that they put
// are in a module of its own, for this crate alone. Relies on `book`, `call_values`, `book_spec`, `blocks` and `numbers`.
#![tactic(auto)]

ghost use Rattle.std.specs.Prelude.{◌≡◌};
ghost use Rattle.call_values.specs.Values.{returned};
ghost use Rattle.book_calls.specs.BookCalls.{book_start_call_verdict, BookStartReturns, book_report_call_verdict, BookReportReturns};

use book::{read_book, start_book};
use numbers::Refusal;
use numbers::checks::check_long;

mod values;

// Starts a book at the front of the buffer: answer[0] is its length in bytes. A refused call writes nothing.
pub fn start(total: u32, buffer: &mut [u8], answer: &mut [u64]) -> Result<(), Refusal>
    ensures { (result ≡ book_start_call_verdict total buffer.old answer.old) ×
        BookStartReturns total buffer.old answer.old (returned result) buffer.new answer.new }
{
    check_long(answer.len(), values::START_VALUES)?;
    let bytes = start_book(total, buffer)?;
    values::put_length(bytes, answer);
    Ok(())
}

// Reads a book, alone in a file: answer[0] to answer[3] are opening, in, out and closing. A refused call writes nothing.
pub fn report(file: &[u8], answer: &mut [u64]) -> Result<(), Refusal>
    ensures { (result ≡ book_report_call_verdict file.now answer.old) × BookReportReturns file.now answer.old (returned result) answer.new }
{
    check_long(answer.len(), values::REPORT_VALUES)?;
    let report = read_book(file)?;
    values::put_report(report, answer);
    Ok(())
}
