// The operations Read a field file and Write a field file. Public: `read_field`, `write_field`; the checks of both are in the module `verdict`,
// for this crate alone, the reading of the lists is in the crate `field_reader` and the writing of the blocks in `field_writer`. Relies on
// these two, `files_spec`, `block_tables`, `blocks`, `field_checks`, `qlt_spec` and `numbers`.
#![tactic(auto)]

ghost use Rattle.qlt_spec.specs.Field.{lists, lists_of};
ghost use Rattle.files_spec.specs.ReadField.{ReadContract};
ghost use Rattle.files_spec.specs.WriteField.{field_write_call, FieldWriteContract};

use field_reader::work::{read_lists, sizes};
use field_writer::sizes::file_length;
use field_writer::work::put_field;
use files_spec::Sizes;
use numbers::Refusal;
use qlt_spec::FieldLists;

mod verdict;

// Reads a field file into seven lists, which may be longer than the field. A refused call writes nothing.
#[tactic(auto, using(crate::proofs::Laws::read_measured, crate::proofs::Laws::read_room))]
pub fn read_field(
    file: &[u8],
    targets: &mut [i32],
    lows: &mut [u32],
    highs: &mut [u32],
    safe_lows: &mut [u32],
    safe_highs: &mut [u32],
    weights: &mut [u32],
    parents: &mut [u32],
) -> Result<Sizes, Refusal>
    ensures { ReadContract file.now
        (lists targets.old lows.old highs.old safe_lows.old safe_highs.old
        weights.old parents.old)
        result
        (lists targets.new lows.new highs.new safe_lows.new safe_highs.new
        weights.new parents.new) }
{
    let room = FieldLists {
        targets,
        lows,
        highs,
        safe_lows,
        safe_highs,
        weights,
        parents,
    };
    verdict::read_verdict(file, &room)?;
    read_lists(
        file, targets, lows, highs, safe_lows, safe_highs, weights, parents,
    );
    Ok(sizes(file))
}

// Writes the field file of the first `cells` entries of six lists, the first `nodes` parents and the total to the front of the buffer, and
// returns its length. A refused call writes nothing.
pub fn write_field(
    cells: usize,
    nodes: usize,
    total: u32,
    field: &FieldLists,
    buffer: &mut [u8],
) -> Result<usize, Refusal>
    ensures { FieldWriteContract (field_write_call cells nodes total (lists_of field.now) buffer.old) result buffer.new }
{
    verdict::write_verdict(cells, nodes, field, buffer)?;
    put_field(buffer, cells, nodes, total, field);
    Ok(file_length(cells, nodes))
}
