// The checks of one block of a book, one function each, and their chain in 02's order: 15, 16, 12. A block is counted from 1.
ghost use Rattle.std.specs.Prelude.{◌≡◌, [], ◌∷◌, ◌+◌, ◌*◌, ◌-◌, ◌≤◌, ◌<◌, ◌^◌, eqb, leb, length};
ghost use Rattle.numbers.specs.Checks.{every_from, first};
ghost use Rattle.blocks.specs.Words.{word_signed};
ghost use Rattle.blocks.specs.Blocks.{payload_word};
ghost use Rattle.book_spec.specs.Book.{used_of};
ghost use Rattle.book_spec.specs.ReadBook.{least_used, is_next, check_used, check_outcomes, check_unused, check_opens, check_follows, check_book_block};

use blocks::block::{check_sound, payload_word};
use blocks::words::word_signed;
use numbers::Refusal;
use numbers::checks::unless;

// Whether a total is the one before it plus a source, given as its word.
fn is_next(before: u32, word: u32, total: u32) -> bool
    ensures { result ≡ is_next before (word_signed word) total }
{
    i64::from(total) == i64::from(before) + i64::from(word_signed(word))
}

// Whether each new total of the records used follows from the one before.
fn totals_follow(file: &[u8], number: usize, used: usize) -> bool
    requires { (0 < number) × (512 * number ≤ length file.now) × (used ≤ 41) }
    ensures { result ≡ every_from (λ i. is_next (payload_word file.now number (3 * i)) (word_signed (payload_word file.now number (3 * i + 1))) (payload_word file.now number (3 * i + 3))) 0 used }
{
    for i in 0..used {
        let before = payload_word(file, number, 3 * i);
        let word = payload_word(file, number, 3 * i + 1);
        let total = payload_word(file, number, 3 * i + 3);
        if !is_next(before, word, total) {
            return false;
        }
    }
    true
}

// 12: each new total of the records used follows.
#[tactic(auto, unfolding(book_spec::specs::ReadBook::check_follows))]
fn check_follows(file: &[u8], number: usize, used: usize) -> Result<(), Refusal>
    requires { (0 < number) × (512 * number ≤ length file.now) × (number < 2 ^ 32) × (used ≤ 41) × (used ≡ used_of file.now number) }
    ensures { result ≡ check_follows file.now number }
{
    unless(totals_follow(file, number, used), 12, number as u32)
}

// Whether each outcome of the records used is at most 2.
fn outcomes_hold(file: &[u8], number: usize, used: usize) -> bool
    requires { (0 < number) × (512 * number ≤ length file.now) × (used ≤ 41) }
    ensures { result ≡ every_from (λ i. leb (payload_word file.now number (3 * i + 2)) 2) 0 used }
{
    for i in 0..used {
        if 2 < payload_word(file, number, 3 * i + 2) {
            return false;
        }
    }
    true
}

// 16: the outcomes of the records used.
#[tactic(auto, unfolding(book_spec::specs::ReadBook::check_outcomes))]
fn check_outcomes(file: &[u8], number: usize, used: usize) -> Result<(), Refusal>
    requires { (0 < number) × (512 * number ≤ length file.now) × (number < 2 ^ 32) × (used ≤ 41) × (used ≡ used_of file.now number) }
    ensures { result ≡ check_outcomes file.now number }
{
    unless(outcomes_hold(file, number, used), 16, number as u32)
}

// Whether the words of the records not used are 0.
fn unused_zero(file: &[u8], number: usize, used: usize) -> bool
    requires { (0 < number) × (512 * number ≤ length file.now) × (used ≤ 41) }
    ensures { result ≡ every_from (λ j. eqb (payload_word file.now number j) 0) (3 * used + 1) (123 - 3 * used) }
{
    for j in 3 * used + 1..124 {
        if payload_word(file, number, j) != 0 {
            return false;
        }
    }
    true
}

// 16: the words of the records not used.
#[tactic(auto, unfolding(book_spec::specs::ReadBook::check_unused))]
fn check_unused(file: &[u8], number: usize, used: usize) -> Result<(), Refusal>
    requires { (0 < number) × (512 * number ≤ length file.now) × (number < 2 ^ 32) × (used ≤ 41) × (used ≡ used_of file.now number) }
    ensures { result ≡ check_unused file.now number }
{
    unless(unused_zero(file, number, used), 16, number as u32)
}

// 12: a later block opens with the closing total of the block before.
#[tactic(auto, unfolding(book_spec::specs::ReadBook::check_opens))]
fn check_opens(file: &[u8], number: usize) -> Result<(), Refusal>
    requires { (0 < number) × (512 * number ≤ length file.now) × (number < 2 ^ 32) }
    ensures { result ≡ check_opens file.now number }
{
    if number <= 1 {
        return Ok(());
    }
    let opens = payload_word(file, number, 0) == payload_word(file, number - 1, 123);
    unless(opens, 12, number as u32)
}

// The fewest records of a block.
fn least_used(blocks: usize, number: usize) -> usize
    ensures { result ≡ least_used blocks number }
{
    if number < blocks {
        41
    } else if 1 < number {
        1
    } else {
        0
    }
}

// 16: the number of records used.
#[tactic(auto, unfolding(book_spec::specs::ReadBook::check_used))]
fn check_used(file: &[u8], blocks: usize, number: usize) -> Result<(), Refusal>
    requires { (0 < number) × (512 * number ≤ length file.now) × (number < 2 ^ 32) }
    ensures { result ≡ check_used file.now blocks number }
{
    let used = payload_word(file, number, 124) as usize;
    unless(
        least_used(blocks, number) <= used && used <= 41,
        16,
        number as u32,
    )
}

// 15, 16 and 12 of a block.
#[tactic(auto, unfolding(book_spec::specs::ReadBook::check_book_block))]
pub fn check_book_block(file: &[u8], blocks: usize, number: usize) -> Result<(), Refusal>
    requires { (0 < number) × (512 * number ≤ length file.now) × (number < 2 ^ 32) }
    ensures { result ≡ check_book_block file.now blocks number }
{
    check_sound(file, number)?;
    check_used(file, blocks, number)?;
    let used = payload_word(file, number, 124) as usize;
    check_outcomes(file, number, used)?;
    check_unused(file, number, used)?;
    check_opens(file, number)?;
    check_follows(file, number, used)
}
