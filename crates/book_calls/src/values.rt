// The values of a start and of a report, put into lent lists.
ghost use Rattle.std.specs.Prelude.{◌≡◌, [], ◌∷◌, ◌≤◌, length};
ghost use Rattle.numbers.specs.Lists.{written};
ghost use Rattle.book_calls.specs.BookCalls.{start_values, report_values, report_words};

use book_spec::BookReport;

// How many each gives; `start_values` and `report_values` in specs/.
pub const START_VALUES: usize = 1;

pub const REPORT_VALUES: usize = 4;

// Each of these puts the values of an accepted call.
pub fn put_length(bytes: usize, answer: &mut [u64])
    requires { start_values ≤ length answer.old }
    ensures { answer.new ≡ written answer.old 0 (bytes ∷ []) }
{
    answer[0] = bytes as u64;
}

pub fn put_report(report: BookReport, answer: &mut [u64])
    requires { report_values ≤ length answer.old }
    ensures { answer.new ≡ written answer.old 0 (report_words report) }
{
    answer[0] = u64::from(report.opening);
    answer[1] = report.inflow;
    answer[2] = report.outflow;
    answer[3] = u64::from(report.closing);
}
