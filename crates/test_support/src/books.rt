// Books for steps.
use book::start_book;

// Starts a book from a total, and gives its length, or 0 if that is refused.
pub fn start(total: u32, book: &mut [u8]) -> usize {
    start_book(total, book).unwrap_or(0)
}
