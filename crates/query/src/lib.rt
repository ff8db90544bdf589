// The operation Query: the line that the tool prints for a cell of a field file (02, ticket 6). Public: `query`; the work below it is in a
// module of its own, for this crate alone, and in `cell_parts` and `query_lines`. Relies on these two, `query_spec`, `repair_file`,
// `field_file`, `files_spec`, `reconstruct`, `field_checks`, `text`, `qlt_spec` and `numbers`.
#![tactic(auto)]

ghost use Rattle.query_spec.specs.Query.{QueryContract};

use numbers::Refusal;
use text::pieces::put_front;

mod work;

// Writes the line for a cell of a field file to the front of `out`: the outcome and the parts of the cell's correction, or the refusal,
// 3 for a cell number of n or more among them. `out` needs 128 bytes; a shorter one is refused with 3 and left as it was.
pub fn query(file: &[u8], cell: usize, out: &mut [u8]) -> Result<usize, Refusal>
    ensures { QueryContract file.now cell out.old result out.new }
{
    let mut text = [0u8; 128];
    let n = work::put_query(file, cell, &mut text);
    put_front(out, &text[..n], 128)
}
