// What a call of Write a field file does once it is accepted: the blocks of the file.
ghost use Rattle.std.specs.Prelude.{◌≡◌, [], ◌∷◌, ◌*◌, ◌≤◌, length};
ghost use Rattle.numbers.specs.Lists.{written};
ghost use Rattle.blocks.specs.Blocks.{block_bytes};
ghost use Rattle.qlt_spec.specs.Field.{lists_of};
ghost use Rattle.files_spec.specs.FieldFile.{field_blocks, field_bytes, fronts, FieldTyped};
ghost use Rattle.files_spec.specs.ReadField.{Room};

use crate::cells::put_cells;
use block_tables::tables::{put_list, table_blocks};
use blocks::block::fill_block;
use files_spec::CELLS;
use qlt_spec::FieldLists;

// Block 1.
fn put_head(buffer: &mut [u8], n: usize, m: usize, total: u32)
    requires { (n ≤ 512) × (m ≤ 1024) × (512 ≤ length buffer.old) }
    ensures { buffer.new ≡ written buffer.old 0 (block_bytes 1 (512 ∷ n ∷ m ∷ total ∷ [])) }
{
    let head = [512u32, n as u32, m as u32, total];
    fill_block(&mut buffer[0..512], 1, &head);
}

// The whole file of the first n cells and m nodes: block 1, the cells, then the parents. Each value that is written fits its type.
pub fn put_field(buffer: &mut [u8], n: usize, m: usize, total: u32, field: &FieldLists)
    requires { (n ≤ 512) × (m ≤ 1024) × (512 * field_blocks n m ≤ length buffer.old) × Room n m (lists_of field.now) }
    ensures buffer_after { buffer.new ≡ written buffer.old 0 (field_bytes (fronts n m (lists_of field.now)) total) }
    ensures typed { FieldTyped (fronts n m (lists_of field.now)) total }
{
    let after = 2 + table_blocks(CELLS, n);
    put_head(buffer, n, m, total);
    put_cells(buffer, 2, field, n);
    put_list(buffer, after, field.parents, m);
}
