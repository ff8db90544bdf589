// Field files and answer files: their bytes, what reading and writing them checks, answers and leaves, and the laws. Definitions (specs/),
// laws (proofs/), and the types and layouts that the code shares; that is in the crates `field_file`, with `field_reader` and `field_writer`
// below it, and `answer_file`. Relies on `block_tables`, `blocks`, `qlt_spec` and `numbers`.
#![tactic(auto)]

use block_tables::tables::Table;
use qlt_spec::Repair;

// Cells of a field file: 20 to a block, six words each.
pub const CELLS: Table = Table {
    words: 6,
    records: 20,
};

// The largest files, in bytes: 36 blocks and 6 blocks.
pub const MAX_FIELD_FILE: usize = 18432;

pub const MAX_ANSWER_FILE: usize = 3072;

// The payload words that an answer file's block 1 uses; `head_used` in specs/AnswerFile.antt.
pub const HEAD_USED: usize = 8;

// What a field file that was read gives beside the lists: their lengths, and M.
#[derive(Clone, Copy)]
pub struct Sizes {
    pub cells: usize,
    pub nodes: usize,
    pub total: u32,
}

// What is told of a repaired field beside its masses: the number of its cells, and the repair.
#[derive(Clone, Copy)]
pub struct Repaired {
    pub cells: usize,
    pub repair: Repair,
}
