// Reports of a book in copies that are damaged, each in another way.
ghost use Rattle.std.specs.Prelude.{◌<◌, ◌≤◌};

use crate::Run;
use crate::buffer::{blocks_of, clear_records, raise_byte, raise_word, renumber, set_word};
use crate::counts::{count, taken, taken_text};
use crate::output::put_report;
use book::read_book;
use test_support::draws::draw;

// How a copy is damaged: cut short, a byte changed, or a word; of a block its number, how many records it uses, or the total that it opens with;
// of the last block its records or the total that it closes with; of a record its source, its total or its outcome; or nothing.
#[derive(Clone, Copy)]
enum Damage {
    ByteLess,
    NoBytes,
    OtherByte,
    OtherNumber,
    MoreUsed,
    LessUsed,
    NoRecords,
    OtherOutcome,
    OtherClosing,
    OtherOpening,
    OtherTotal,
    OtherSource,
    Nothing,
}

// Damages a block, a record of it, or the last block.
fn damage_block(damage: Damage, blocks: usize, block: usize, place: usize, bytes: &mut [u8; 32768])
    requires { (0 < blocks) × (blocks ≤ 64) × (0 < block) × (block ≤ 64) × (place < 41) }
{
    match damage {
        Damage::OtherNumber => renumber(bytes, block),
        Damage::MoreUsed => set_word(bytes, block, 124, 42),
        Damage::LessUsed => set_word(bytes, block, 124, 40),
        Damage::NoRecords => clear_records(bytes, blocks),
        Damage::OtherOutcome => set_word(bytes, block, 3 * place + 2, 3),
        Damage::OtherClosing => set_word(bytes, blocks, 123, 1),
        Damage::OtherOpening => raise_word(bytes, block, 0),
        Damage::OtherTotal => raise_word(bytes, block, 3 * place + 3),
        Damage::OtherSource => raise_word(bytes, block, 3 * place + 1),
        _ => {}
    }
}

// Damages a byte, if that is the damage. Returns the generator's state behind its draw.
fn damage_byte(state: u32, damage: Damage, blocks: usize, bytes: &mut [u8; 32768]) -> u32
    requires { (0 < blocks) × (blocks ≤ 64) }
{
    match damage {
        Damage::OtherByte => {
            let position = draw(state, (512 * blocks) as u32);
            raise_byte(bytes, position.value as usize, 1);
            position.state
        }
        _ => state,
    }
}

// How many bytes are reported.
fn reported(damage: Damage, blocks: usize) -> usize
    requires { (0 < blocks) × (blocks ≤ 64) }
    ensures { result ≤ 32768 }
{
    match damage {
        Damage::ByteLess => 512 * blocks - 1,
        Damage::NoBytes => 0,
        _ => 512 * blocks,
    }
}

// The number that a book is refused with, or 0.
fn refusal(file: &[u8]) -> u32 {
    match read_book(file) {
        Ok(_) => 0,
        Err(refusal) => refusal.number,
    }
}

// The check number with the text of a report.
fn taken_report(told: u64, file: &[u8]) -> u64 {
    let mut out = [0u8; 128];
    let k = put_report(file, &mut out);
    taken_text(taken(told, k as u64), &out[..k])
}

// Reads and reports the first bytes. Returns the check number with the report's text.
fn take_report(told: u64, bytes: &[u8; 32768], n: usize, damaged: &mut [u32; 22]) -> u64
    requires { n ≤ 32768 }
{
    let file = &bytes[..n];
    count(refusal(file), damaged);
    taken_report(told, file)
}

// The run with another state and check number.
fn with_told(run: Run, state: u32, told: u64) -> Run {
    Run { state, told, ..run }
}

// Reports the book in a damaged copy.
fn damage_by(
    run: Run,
    damage: Damage,
    buffer: &[u8; 32768],
    copied: &mut [u8; 32768],
    damaged: &mut [u32; 22],
) -> Run {
    let blocks = blocks_of(run.length);
    copied.copy_from_slice(buffer);
    let block = draw(run.state, blocks as u32);
    let record = draw(block.state, 41);
    damage_block(
        damage,
        blocks,
        1 + block.value as usize,
        record.value as usize,
        copied,
    );
    let state = damage_byte(record.state, damage, blocks, copied);
    let told = take_report(run.told, copied, reported(damage, blocks), damaged);
    with_told(run, state, told)
}

// Reports the book in copies, one for each damage.
pub fn report_damaged(
    run: Run,
    buffer: &[u8; 32768],
    copied: &mut [u8; 32768],
    damaged: &mut [u32; 22],
) -> Run {
    let mut now = run;
    let damages = [
        Damage::ByteLess,
        Damage::NoBytes,
        Damage::OtherByte,
        Damage::OtherNumber,
        Damage::MoreUsed,
        Damage::LessUsed,
        Damage::NoRecords,
        Damage::OtherOutcome,
        Damage::OtherClosing,
        Damage::OtherOpening,
        Damage::OtherTotal,
        Damage::OtherSource,
        Damage::Nothing,
    ];
    for damage in &damages {
        now = damage_by(now, *damage, buffer, copied, damaged);
    }
    now
}
