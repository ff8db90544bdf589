// The operation Report: the text that the program prints for a file. Public: `report`; the work below it is in a module of its own, for
// this crate alone. Relies on `repair_file`, `listing`, `text`, `files_spec`, `qlt_spec` and `numbers`.
#![tactic(auto)]

ghost use Rattle.report.specs.Report.{ReportContract};

use numbers::Refusal;
use text::pieces::put_front;

mod work;

// Writes the text for a field file to the front of `out`: the listing, or the one line of a refusal of the file. `out` needs 16384 bytes;
// a shorter one is refused with 3 and left as it was.
pub fn report(file: &[u8], out: &mut [u8]) -> Result<usize, Refusal>
    ensures { ReportContract file.now out.old result out.new }
{
    let mut text = [0u8; 16384];
    let n = work::put_report(file, &mut text);
    put_front(out, &text[..n], 16384)
}
