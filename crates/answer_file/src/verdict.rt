// The checks of Write an answer and of Read an answer, one function each, and their chains in 01's order.
ghost use Rattle.std.specs.Prelude.{◌≡◌, ◌*◌, ◌≤◌, ◌<◌, ◌^◌, length};
ghost use Rattle.numbers.specs.Checks.{first};
ghost use Rattle.files_spec.specs.AnswerFile.{answer_blocks};
ghost use Rattle.files_spec.specs.WriteAnswer.{check_space, check_outcome, check_masses, write_call, write_verdict};
ghost use Rattle.files_spec.specs.ReadAnswer.{answer_block_checks, answer_size_checks, answer_head_verdict, answer_later_verdict, answer_sum_verdict, AnswerMeasured};

use block_tables::tables::{LIST, check_table, sum_column, table_blocks};
use blocks::block::{check_sound, check_spare, payload_word};
use blocks::files::{check_block_count, check_file_length, check_mark};
use files_spec::{HEAD_USED, MAX_ANSWER_FILE};
use numbers::Refusal;
use numbers::checks::{check_count, check_long, unless};
use numbers::lists::sum_of;
use qlt_spec::Repair;

// How many blocks the file of n cells has, and how many bytes.
fn answer_blocks(n: usize) -> usize
    requires { n < 2 ^ 32 }
    ensures { result ≡ answer_blocks n }
{
    1 + table_blocks(LIST, n)
}

pub fn file_length(n: usize) -> usize
    requires { n ≤ 512 }
    ensures { result ≡ 512 * answer_blocks n }
{
    512 * answer_blocks(n)
}

// 3: the buffer and the masses are long enough.
#[tactic(auto, unfolding(files_spec::specs::WriteAnswer::check_space))]
fn check_space(n: usize, buffer: usize, masses: usize) -> Result<(), Refusal>
    requires { n ≤ 512 }
    ensures { result ≡ check_space n buffer masses }
{
    unless(file_length(n) <= buffer && n <= masses, 3, 0)
}

// 16: the outcome is at most 2.
#[tactic(auto, unfolding(files_spec::specs::WriteAnswer::check_outcome))]
fn check_outcome(outcome: u32) -> Result<(), Refusal>
    ensures { result ≡ check_outcome outcome }
{
    unless(outcome <= 2, 16, 1)
}

// 12: the first n masses add up to the total.
#[tactic(auto, unfolding(files_spec::specs::WriteAnswer::check_masses))]
fn check_masses(n: usize, masses: &[u32], total: u32) -> Result<(), Refusal>
    requires { (n ≤ 512) × (n ≤ length masses.now) }
    ensures { result ≡ check_masses n masses.now total }
{
    unless(sum_of(&masses[..n]) == u64::from(total), 12, 0)
}

// The chain of the writer.
#[tactic(auto, unfolding(files_spec::specs::WriteAnswer::write_verdict))]
pub fn write_verdict(
    cells: usize,
    repair: Repair,
    masses: &[u32],
    buffer: &[u8],
) -> Result<(), Refusal>
    ensures { result ≡ write_verdict (write_call cells repair masses.now buffer.now) }
{
    check_count(cells)?;
    check_space(cells, buffer.len(), masses.len())?;
    check_outcome(repair.outcome)?;
    check_masses(cells, masses, repair.total)
}

// Block 1's number, check words, first word, outcome and spare words.
fn head_block(file: &[u8]) -> Result<(), Refusal>
    requires { 512 ≤ length file.now }
    ensures { result ≡ first (answer_block_checks file.now) }
{
    check_sound(file, 1)?;
    check_mark(file)?;
    check_outcome(payload_word(file, 1, 2))?;
    check_spare(file, HEAD_USED, 1)
}

// n, the length and the list.
fn sizes_verdict(file: &[u8], room: usize) -> Result<(), Refusal>
    requires { 512 ≤ length file.now }
    ensures { result ≡ first (answer_size_checks file.now room) }
{
    let n = payload_word(file, 1, 1) as usize;
    check_count(n)?;
    check_block_count(file.len(), answer_blocks(n))?;
    check_long(room, n)
}

// The reader's checks of the file's length, of block 1, the sizes and the list.
#[tactic(auto, unfolding(files_spec::specs::ReadAnswer::answer_head_verdict))]
pub fn head_verdict(file: &[u8], room: usize) -> Result<(), Refusal>
    ensures { result ≡ answer_head_verdict file.now room }
{
    check_file_length(MAX_ANSWER_FILE, file.len())?;
    head_block(file)?;
    sizes_verdict(file, room)
}

// The later blocks in order.
pub fn later_verdict(file: &[u8]) -> Result<(), Refusal>
    requires { AnswerMeasured file.now }
    ensures { result ≡ answer_later_verdict file.now }
{
    check_table(file, LIST, 2, payload_word(file, 1, 1) as usize)
}

// 12: the masses of the file add up to its total.
#[tactic(auto, unfolding(files_spec::specs::ReadAnswer::answer_sum_verdict, files_spec::specs::WriteAnswer::check_masses))]
pub fn sum_verdict(file: &[u8]) -> Result<(), Refusal>
    requires { AnswerMeasured file.now }
    ensures { result ≡ answer_sum_verdict file.now }
{
    let sum = sum_column(file, LIST, 2, 0, payload_word(file, 1, 1) as usize);
    unless(sum == u64::from(payload_word(file, 1, 3)), 12, 0)
}
