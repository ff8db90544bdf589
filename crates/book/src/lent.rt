// For the crates above: a book at the front of a buffer that a step is lent, with its length as the step is told it. Each function has its
// whole contract.
ghost use Rattle.std.specs.Prelude.{◌≡◌, ◌≤◌, ◌<◌, length};
ghost use Rattle.numbers.specs.Checks.{first};
ghost use Rattle.book_spec.specs.Book.{entry, count, max_entries, max_bytes};
ghost use Rattle.book_spec.specs.LentBook.{held_in, HasBook, lent_checks, grown_buffer, grown_length};

use crate::record::add_entry;
use crate::verdict::{MAX_BYTES, file_verdict};
use blocks::files::check_file_length;
use blocks::words::signed_word;
use numbers::Refusal;

// The checks of a step that goes on from a total: 14, block by block 15, 16 and 12, then 12 at the last block, then 21. A length that
// passes 14 lies in the buffer.
pub fn check_lent(book: &[u8], told: usize, total: u32) -> Result<(), Refusal>
    requires { max_bytes ≤ length book.now }
    ensures { result ≡ first (lent_checks book.now told total) }
{
    check_file_length(MAX_BYTES, told)?;
    file_verdict(&book[0..told], total)
}

// Adds the record of an accepted step to a book that is not full, and returns the new length.
pub fn add_record(book: &mut [u8], told: usize, source: i32, outcome: u32, total: u32) -> usize
    requires { HasBook book.old told (held_in book.old told) × (count (held_in book.old told) < max_entries) }
    ensures { (book.new ≡ grown_buffer book.old told (entry source outcome total)) × (result ≡ grown_length book.old told) }
{
    512 * add_entry(book, told / 512, signed_word(source), outcome, total)
}
