// The checks of Read a field file and of Write a field file, one function each, and their chains in 01's order.
ghost use Rattle.std.specs.Prelude.{◌≡◌, ℕ, ◌≤◌, length};
ghost use Rattle.numbers.specs.Checks.{first};
ghost use Rattle.qlt_spec.specs.Field.{lists_of};
ghost use Rattle.files_spec.specs.ReadField.{room_of, block_checks, size_checks, head_verdict, later_verdict, read_verdict, Measured};
ghost use Rattle.files_spec.specs.WriteField.{field_write_call, field_write_verdict};

use block_tables::tables::{LIST, check_table, table_blocks};
use blocks::block::{check_sound, check_spare, payload_word};
use blocks::files::{check_block_count, check_file_length, check_mark};
use field_checks::shape::check_nodes;
use field_writer::sizes::{field_blocks, file_length};
use files_spec::{CELLS, MAX_FIELD_FILE};
use numbers::Refusal;
use numbers::checks::{check_count, check_long};
use qlt_spec::FieldLists;

// Block 1's number, check words, first word and spare words.
#[tactic(auto, using(numbers::proofs::CheckLaws::last))]
fn head_block(file: &[u8]) -> Result<(), Refusal>
    requires { 512 ≤ length file.now }
    ensures { result ≡ first (block_checks file.now) }
{
    check_sound(file, 1)?;
    check_mark(file)?;
    check_spare(file, 4, 1)
}

// 3: each list has room for n or m.
#[tactic(auto, unfolding(files_spec::specs::ReadField::check_room), using(numbers::proofs::CheckLaws::last))]
fn check_room(n: usize, m: usize, field: &FieldLists) -> Result<(), Refusal>
    ensures { result ≡ room_of n m (lists_of field.now) }
{
    check_long(field.targets.len(), n)?;
    check_long(field.lows.len(), n)?;
    check_long(field.highs.len(), n)?;
    check_long(field.safe_lows.len(), n)?;
    check_long(field.safe_highs.len(), n)?;
    check_long(field.weights.len(), n)?;
    check_long(field.parents.len(), m)
}

// n, m, the length and the lists.
#[tactic(auto, using(numbers::proofs::CheckLaws::last))]
fn sizes_verdict(file: &[u8], field: &FieldLists) -> Result<(), Refusal>
    requires { 512 ≤ length file.now }
    ensures { result ≡ first (size_checks file.now (lists_of field.now)) }
{
    let n = payload_word(file, 1, 1) as usize;
    let m = payload_word(file, 1, 2) as usize;
    check_count(n)?;
    check_nodes(n, m)?;
    check_block_count(file.len(), field_blocks(n, m))?;
    check_room(n, m, field)
}

// The file's length, block 1, the sizes and the lists.
#[tactic(auto, using(crate::proofs::Laws::one_block))]
pub fn head_verdict(file: &[u8], field: &FieldLists) -> Result<(), Refusal>
    ensures { result ≡ head_verdict file.now (lists_of field.now) }
{
    check_file_length(MAX_FIELD_FILE, file.len())?;
    head_block(file)?;
    sizes_verdict(file, field)
}

// The later blocks in order: those of the cells, then those of the parents.
fn later_verdict(file: &[u8]) -> Result<(), Refusal>
    requires { Measured file.now }
    ensures { result ≡ later_verdict file.now }
{
    let n = payload_word(file, 1, 1) as usize;
    let m = payload_word(file, 1, 2) as usize;
    check_table(file, CELLS, 2, n)?;
    check_table(file, LIST, 2 + table_blocks(CELLS, n), m)
}

// The chain of Read a field file into these lists.
#[tactic(auto, unfolding(files_spec::specs::ReadField::read_verdict), using(numbers::proofs::CheckLaws::last, crate::proofs::Laws::head_measured))]
pub fn read_verdict(file: &[u8], field: &FieldLists) -> Result<(), Refusal>
    ensures { result ≡ read_verdict file.now (lists_of field.now) }
{
    head_verdict(file, field)?;
    later_verdict(file)
}

// The chain of Write a field file, whatever the total: n and m, then the lists and the buffer.
#[tactic(auto, unfolding(files_spec::specs::WriteField::field_write_verdict), using(numbers::proofs::CheckLaws::last, crate::proofs::Laws::few))]
pub fn write_verdict(
    cells: usize,
    nodes: usize,
    field: &FieldLists,
    buffer: &[u8],
) -> Result<(), Refusal>
    ensures { (total : ℕ) → result ≡ field_write_verdict
        (field_write_call cells nodes total (lists_of field.now) buffer.now) }
{
    check_count(cells)?;
    check_nodes(cells, nodes)?;
    check_room(cells, nodes, field)?;
    check_long(buffer.len(), file_length(cells, nodes))
}
