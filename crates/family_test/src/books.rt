// The books of the members: a buffer of 32768 bytes for each of 8 members in one list, and their lengths.
ghost use Rattle.std.specs.Prelude.{◌≤◌, ◌<◌};

use book::start_book;

// The place of a member's length.
fn slot(member: u32) -> usize
    ensures { result < 8 }
{
    (member % 8) as usize
}

// Where a member's buffer begins.
pub fn place(member: u32) -> usize
    ensures { result ≤ 229376 }
{
    slot(member) * 32768
}

// The length of a member's book.
pub fn length_of(lengths: &[usize; 8], member: u32) -> usize {
    lengths[slot(member)]
}

// Keeps the length of a member's book.
pub fn keep_length(length: usize, member: u32, lengths: &mut [usize; 8]) {
    lengths[slot(member)] = length;
}

// Starts the book of a member that was opened with a total.
pub fn start(total: u32, member: u32, books: &mut [u8; 262144], lengths: &mut [usize; 8]) {
    let at = place(member);
    if let Ok(length) = start_book(total, &mut books[at..at + 32768]) {
        keep_length(length, member, lengths);
    }
}
