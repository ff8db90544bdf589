// What a call of Read a field file does once the file is accepted: the sizes and the lists, each word through the part of the file that
// `payload` hands back.
ghost use Rattle.std.specs.Prelude.{◌≡◌};
ghost use Rattle.qlt_spec.specs.Field.{lists};
ghost use Rattle.files_spec.specs.ReadField.{file_cells, file_nodes, Measured, Room, sizes_of, lists_read};

use block_tables::tables::{LIST, read_column, table_blocks};
use blocks::block::payload_word;
use files_spec::{CELLS, Sizes};

// The seven lists, which may be longer than the field.
#[tactic(auto, using(block_tables::proofs::TableLaws::list_fits, files_spec::proofs::ReadLaws::cell_fits))]
pub fn read_lists(
    file: &[u8],
    targets: &mut [i32],
    lows: &mut [u32],
    highs: &mut [u32],
    safe_lows: &mut [u32],
    safe_highs: &mut [u32],
    weights: &mut [u32],
    parents: &mut [u32],
)
    requires measured { Measured file.now }
    requires room { Room (file_cells file.now) (file_nodes file.now)
        (lists targets.old lows.old highs.old safe_lows.old safe_highs.old weights.old parents.old) }
    ensures { lists targets.new lows.new highs.new safe_lows.new safe_highs.new
        weights.new parents.new ≡ lists_read file.now
        (lists targets.old lows.old highs.old safe_lows.old safe_highs.old
        weights.old parents.old) }
{
    let n = payload_word(file, 1, 1) as usize;
    let m = payload_word(file, 1, 2) as usize;
    read_column(file, CELLS, 2, 0, n, targets);
    read_column(file, CELLS, 2, 1, n, lows);
    read_column(file, CELLS, 2, 2, n, highs);
    read_column(file, CELLS, 2, 3, n, safe_lows);
    read_column(file, CELLS, 2, 4, n, safe_highs);
    read_column(file, CELLS, 2, 5, n, weights);
    read_column(file, LIST, 2 + table_blocks(CELLS, n), 0, m, parents);
}

// What block 1 says: the numbers of cells and nodes, and the total.
pub fn sizes(file: &[u8]) -> Sizes
    requires { Measured file.now }
    ensures { result ≡ sizes_of file.now }
{
    Sizes {
        cells: payload_word(file, 1, 1) as usize,
        nodes: payload_word(file, 1, 2) as usize,
        total: payload_word(file, 1, 3),
    }
}
