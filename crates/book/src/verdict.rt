// The checks of a whole book: 14, then block by block; those of a book that a step goes on from; and those of a start.
ghost use Rattle.std.specs.Prelude.{◌≡◌, [], ◌∷◌, ◌*◌, ◌/◌, ◌≤◌, length};
ghost use Rattle.numbers.specs.Checks.{each_from, first};
ghost use Rattle.book_spec.specs.Book.{book_of};
ghost use Rattle.book_spec.specs.ReadBook.{check_book_block, book_verdict, BookFits};
ghost use Rattle.book_spec.specs.StartBook.{book_start_verdict};
ghost use Rattle.book_spec.specs.LentBook.{check_closing, check_full};

use crate::block::check_book_block;
use crate::report::{closing_of, count_of};
use blocks::files::check_file_length;
use numbers::Refusal;
use numbers::checks::{check_long, check_total, unless};

// The bytes of a full book.
pub const MAX_BYTES: usize = 32768;

// The blocks of a book in order.
fn check_blocks(file: &[u8], blocks: usize) -> Result<(), Refusal>
    requires { (512 * blocks ≤ length file.now) × (blocks ≤ 64) }
    ensures { result ≡ each_from (check_book_block file.now blocks) 1 blocks }
{
    for b in 1..=blocks {
        check_book_block(file, blocks, b)?;
    }
    Ok(())
}

// A book, alone in a file.
#[tactic(auto, unfolding(book_spec::specs::ReadBook::book_verdict))]
pub fn book_verdict(file: &[u8]) -> Result<(), Refusal>
    ensures { result ≡ book_verdict (length file.now) file.now }
{
    check_file_length(MAX_BYTES, file.len())?;
    check_blocks(file, file.len() / 512)
}

// 12 at the last block, then 21, of a book that is in order.
#[tactic(auto, unfolding(book_spec::specs::LentBook::check_closing, book_spec::specs::LentBook::check_full))]
fn last_checks(file: &[u8], total: u32) -> Result<(), Refusal>
    requires { BookFits (length file.now) file.now }
    ensures { result ≡ first (check_closing (book_of file.now) total (length file.now / 512) ∷ check_full (book_of file.now) ∷ []) }
{
    let last = (file.len() / 512) as u32;
    unless(closing_of(file) == total, 12, last)?;
    unless(count_of(file) < 2624, 21, 0)
}

// All checks of a book that a step goes on from with a total.
pub fn file_verdict(file: &[u8], total: u32) -> Result<(), Refusal>
    ensures { result ≡ first (book_verdict (length file.now) file.now ∷ check_closing (book_of file.now) total (length file.now / 512)
        ∷ check_full (book_of file.now) ∷ []) }
{
    book_verdict(file)?;
    last_checks(file, total)
}

// The checks of a start: 3, then 13.
#[tactic(auto, unfolding(book_spec::specs::StartBook::book_start_verdict))]
pub fn start_verdict(total: u32, buffer: &[u8]) -> Result<(), Refusal>
    ensures { result ≡ book_start_verdict total buffer.now }
{
    check_long(buffer.len(), MAX_BYTES)?;
    check_total(i64::from(total))
}
