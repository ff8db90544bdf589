// The blocks of cells of a field file. Each function has its whole contract.
ghost use Rattle.std.specs.Prelude.{◌≡◌, ℕ, ◌+◌, ◌*◌, ◌-◌, ◌≤◌, ◌<◌, ◌^◌, length};
ghost use Rattle.numbers.specs.Lists.{at, written};
ghost use Rattle.blocks.specs.Blocks.{block_bytes};
ghost use Rattle.block_tables.specs.Tables.{table_used, table_bytes};
ghost use Rattle.qlt_spec.specs.Field.{lists_of};
ghost use Rattle.files_spec.specs.FieldFile.{cell_table, cell_blocks, cell_words};
ghost use Rattle.field_writer.specs.Cells.{Cells, WordFits, BlockFits, block_words};

use block_tables::tables::{table_blocks, table_used};
use blocks::block::fill_block;
use blocks::words::signed_word;
use files_spec::CELLS;
use qlt_spec::FieldLists;

// Word j of cell i, which fits its type.
fn cell_word(field: &FieldLists, i: usize, j: usize) -> u32
    requires { Cells (i + 1) (lists_of field.now) × (j < 6) }
    ensures value { result ≡ at (cell_words (lists_of field.now) i) j }
    ensures fits { WordFits (lists_of field.now) i j }
{
    match j {
        0 => signed_word(field.targets[i]),
        1 => field.lows[i],
        2 => field.highs[i],
        3 => field.safe_lows[i],
        4 => field.safe_highs[i],
        _ => field.weights[i],
    }
}

// The words of the k-th block of n cells, to the front of a list; returns how many.
fn fill_cells(words: &mut [u32], field: &FieldLists, n: usize, k: usize) -> usize
    requires { (length words.old ≡ 120) × (20 * k ≤ n) × Cells n (lists_of field.now) }
    ensures used { result ≡ table_used cell_table n k }
    ensures words_after { words.new ≡ written words.old 0 (block_words n (lists_of field.now) k) }
    ensures fits { BlockFits n (lists_of field.now) k }
{
    let used = table_used(CELLS, n, k);
    for x in 0..used {
        words[x] = cell_word(field, 20 * k + x / 6, x % 6);
    }
    used
}

// The k-th block of n cells, the first of them being block `from` of the file.
fn put_cell_block(buffer: &mut [u8], from: usize, field: &FieldLists, n: usize, k: usize)
    requires { (0 < from) × (from + k < 2 ^ 32) × (20 * k < n) × (512 * (from + k) ≤ length buffer.old) × Cells n (lists_of field.now) }
    ensures buffer_after { buffer.new ≡ written buffer.old (512 * (from + k - 1)) (block_bytes (from + k) (block_words n (lists_of field.now) k)) }
    ensures fits { BlockFits n (lists_of field.now) k }
{
    let mut words = [0u32; 120];
    let used = fill_cells(&mut words, field, n, k);
    let at = 512 * (from + k - 1);
    let end = at + 512;
    let number = (from + k) as u32;
    fill_block(&mut buffer[at..end], number, &words[0..used]);
}

// All blocks of the first n cells; each word of these fits its type.
pub fn put_cells(buffer: &mut [u8], from: usize, field: &FieldLists, n: usize)
    requires { (0 < from) × (n ≤ 512) × (from + cell_blocks n ≤ 2 ^ 32) × (512 * (from - 1 + cell_blocks n) ≤ length buffer.old) ×
        Cells n (lists_of field.now) }
    ensures buffer_after { buffer.new ≡ written buffer.old (512 * (from - 1))
        (table_bytes cell_table n (λ i j. at (cell_words (lists_of field.now) i) j) from (cell_blocks n)) }
    ensures fits { (i j : ℕ) → i < n → j < 6 → WordFits (lists_of field.now) i j }
{
    let count = table_blocks(CELLS, n);
    for k in 0..count {
        put_cell_block(buffer, from, field, n, k);
    }
}
