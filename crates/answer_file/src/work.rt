// The blocks of an answer file, as they are written; what an accepted file holds.
ghost use Rattle.std.specs.Prelude.{◌≡◌, ◌*◌, ◌≤◌, length};
ghost use Rattle.numbers.specs.Lists.{written};
ghost use Rattle.blocks.specs.Blocks.{block_bytes};
ghost use Rattle.files_spec.specs.AnswerFile.{answer_blocks, answer_head, answer_bytes};
ghost use Rattle.files_spec.specs.ReadAnswer.{answer_cells, answer_masses, AnswerMeasured, answer_of};

use block_tables::tables::{LIST, put_list, read_column};
use blocks::block::{fill_block, payload_word};
use blocks::words::{high_word, low_word, two_words};
use files_spec::Repaired;
use qlt_spec::Repair;

// Block 1.
fn put_head(buffer: &mut [u8], n: usize, repair: Repair)
    requires { (n ≤ 512) × (512 ≤ length buffer.old) }
    ensures { buffer.new ≡ written buffer.old 0 (block_bytes 1 (answer_head n repair)) }
{
    let head = [
        512,
        n as u32,
        repair.outcome,
        repair.total,
        low_word(repair.change),
        high_word(repair.change),
        low_word(repair.shared),
        high_word(repair.shared),
    ];
    fill_block(&mut buffer[..512], 1, &head);
}

// The whole file.
pub fn put_answer(buffer: &mut [u8], n: usize, repair: Repair, masses: &[u32])
    requires { (n ≤ 512) × (n ≤ length masses.now) × (512 * answer_blocks n ≤ length buffer.old) }
    ensures { buffer.new ≡ written buffer.old 0 (answer_bytes n repair masses.now) }
{
    put_head(buffer, n, repair);
    put_list(buffer, 2, masses, n);
}

// The masses.
#[tactic(auto, unfolding(files_spec::specs::ReadAnswer::answer_masses))]
pub fn read_masses(file: &[u8], masses: &mut [u32])
    requires { AnswerMeasured file.now × (answer_cells file.now ≤ length masses.old) }
    ensures { masses.new ≡ written masses.old 0 (answer_masses file.now) }
{
    read_column(file, LIST, 2, 0, payload_word(file, 1, 1) as usize, masses);
}

// What block 1 tells: the number of cells, and the repair.
pub fn told(file: &[u8]) -> Repaired
    requires { 512 ≤ length file.now }
    ensures { result ≡ answer_of file.now }
{
    Repaired {
        cells: payload_word(file, 1, 1) as usize,
        repair: Repair {
            outcome: payload_word(file, 1, 2),
            total: payload_word(file, 1, 3),
            change: two_words(payload_word(file, 1, 4), payload_word(file, 1, 5)),
            shared: two_words(payload_word(file, 1, 6), payload_word(file, 1, 7)),
        },
    }
}
