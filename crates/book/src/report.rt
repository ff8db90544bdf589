// What a book that is in order holds: how many records, the total it closes with, the two sums, and its report.
ghost use Rattle.std.specs.Prelude.{◌≡◌, ◌+◌, ◌*◌, ◌/◌, ◌%◌, ◌≤◌, length};
ghost use Rattle.numbers.specs.Sums.{ℕ_adds, sum_to};
ghost use Rattle.numbers.specs.Signed.{over, under};
ghost use Rattle.blocks.specs.Words.{word_signed};
ghost use Rattle.blocks.specs.Blocks.{payload_word};
ghost use Rattle.book_spec.specs.Book.{count, closing, max_entries, report_of, book_of};
ghost use Rattle.book_spec.specs.ReadBook.{BookFits};

use blocks::block::payload_word;
use blocks::words::word_signed;
use book_spec::BookReport;
use numbers::arith::above;

// How many records it has.
pub fn count_of(file: &[u8]) -> usize
    requires { BookFits (length file.now) file.now }
    ensures { (result ≡ count (book_of file.now)) × (result ≤ max_entries) × (result ≤ 41 * (length file.now / 512)) }
{
    let blocks = file.len() / 512;
    41 * (blocks - 1) + payload_word(file, blocks, 124) as usize
}

// The total it closes with.
pub fn closing_of(file: &[u8]) -> u32
    requires { BookFits (length file.now) file.now }
    ensures { result ≡ closing (book_of file.now) }
{
    let blocks = file.len() / 512;
    let used = payload_word(file, blocks, 124) as usize;
    payload_word(file, blocks, 3 * used)
}

// The sum of the sources above 0, and the size of the sum of those below.
fn flows(file: &[u8], n: usize) -> (u64, u64)
    requires { (n ≤ max_entries) × (n ≤ 41 * (length file.now / 512)) }
    ensures inflow { result.0 ≡ sum_to ℕ_adds n (λ i. over (word_signed (payload_word file.now (1 + i / 41) (3 * (i % 41) + 1)))) }
    ensures outflow { result.1 ≡ sum_to ℕ_adds n (λ i. under (word_signed (payload_word file.now (1 + i / 41) (3 * (i % 41) + 1)))) }
{
    let mut inflow = 0;
    let mut outflow = 0;
    for i in 0..n {
        let source = word_signed(payload_word(file, 1 + i / 41, 3 * (i % 41) + 1));
        let below = above(-i64::from(source));
        inflow += above(i64::from(source));
        outflow += below;
    }
    (inflow, outflow)
}

// Its report.
pub fn report(file: &[u8]) -> BookReport
    requires { BookFits (length file.now) file.now }
    ensures { result ≡ report_of (book_of file.now) }
{
    let n = count_of(file);
    let opening = payload_word(file, 1, 0);
    let (inflow, outflow) = flows(file, n);
    let closing = closing_of(file);
    BookReport {
        opening,
        inflow,
        outflow,
        closing,
    }
}
