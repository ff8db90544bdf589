// For the crates of files: tables of records in the blocks of a file. Each function has its whole contract.
ghost use Rattle.std.specs.Prelude.{◌≡◌, ℕ, ◌+◌, ◌*◌, ◌-◌, ◌/◌, ◌≤◌, ◌<◌, ◌^◌, length};
ghost use Rattle.numbers.specs.Sums.{ℕ_adds, sum_to};
ghost use Rattle.numbers.specs.Lists.{at, list_to, written};
ghost use Rattle.blocks.specs.Words.{Words, word_signed};
ghost use Rattle.blocks.specs.Blocks.{block_bytes};
ghost use Rattle.block_tables.specs.Tables.{table_blocks, table_used, TableFits, table_bytes, table_word, HasTable, check_table, list_table, list_block};

use blocks::block::{check_block, fill_block, payload_word};
use blocks::words::word_signed;
use numbers::Refusal;

// A layout: how many words a record has, and how many records a block has.
#[derive(Clone, Copy)]
pub struct Table {
    pub words: usize,
    pub records: usize,
}

// A list of numbers: 125 to a block, one word each.
pub const LIST: Table = Table {
    words: 1,
    records: 125,
};

// How many blocks n records take.
pub fn table_blocks(table: Table, n: usize) -> usize
    requires { TableFits table × (n < 2 ^ 32) }
    ensures { result ≡ table_blocks table n }
{
    (n + (table.records - 1)) / table.records
}

// How many payload words the k-th of these blocks uses, from 0.
pub fn table_used(table: Table, n: usize, k: usize) -> usize
    requires { TableFits table × (table.records * k ≤ n) }
    ensures { (result ≡ table_used table n k) × (result ≤ 125) }
{
    table.words * table.records.min(n - table.records * k)
}

// The table's blocks in order, from block `from` on: each by 15, then 16.
pub fn check_table(file: &[u8], table: Table, from: usize, n: usize) -> Result<(), Refusal>
    requires { HasTable table file.now from n × (n < 2 ^ 32) × (from + table_blocks table n ≤ 2 ^ 32) }
    ensures { result ≡ check_table table file.now from n }
{
    for b in from..from + table_blocks(table, n) {
        check_block(file, table_used(table, n, b - from), b)?;
    }
    Ok(())
}

// Word j of record i, where the table starts at block `from`.
fn table_word(file: &[u8], table: Table, from: usize, j: usize, i: usize) -> u32
    requires { TableFits table × (0 < from) × (512 * (from + i / table.records) ≤ length file.now) × (j < table.words) }
    ensures { result ≡ table_word table file.now from j i }
{
    payload_word(
        file,
        from + i / table.records,
        table.words * (i % table.records) + j,
    )
}

// An entry of a list that a table is read into: the word as it is, or the signed number that it stands for.
pub trait Entry: Copy {
    ghost of_word: { ℕ → Self };

    fn of_word(word: u32) -> Self
        ensures { result ≡ of_word word };
}

impl Entry for u32 {
    ghost of_word = { λ w. w };

    fn of_word(word: u32) -> u32 {
        word
    }
}

impl Entry for i32 {
    ghost of_word = { word_signed };

    fn of_word(word: u32) -> i32 {
        word_signed(word)
    }
}

// Word j of each of n records, into the front of a list.
pub fn read_column<T: Entry>(
    file: &[u8],
    table: Table,
    from: usize,
    j: usize,
    n: usize,
    list: &mut [T],
)
    requires { HasTable table file.now from n × (j < table.words) × (n ≤ length list.old) }
    ensures { list.new ≡ written list.old 0 (list_to n (λ i. T.of_word (table_word table file.now from j i))) }
{
    for i in 0..n {
        list[i] = T::of_word(table_word(file, table, from, j, i));
    }
}

// The sum of word j of each of n records.
pub fn sum_column(file: &[u8], table: Table, from: usize, j: usize, n: usize) -> u64
    requires { HasTable table file.now from n × (j < table.words) × (n ≤ 1024) }
    ensures { (result ≡ sum_to ℕ_adds n (table_word table file.now from j)) × (result < 2 ^ 42) }
{
    let mut sum = 0;
    for i in 0..n {
        sum += u64::from(table_word(file, table, from, j, i));
    }
    sum
}

// The k-th block of the first n numbers of a list, 125 to a block, the first of them being block `from` of the file.
fn put_list_block(buffer: &mut [u8], from: usize, list: &[u32], n: usize, k: usize)
    requires { (0 < from) × (from + k < 2 ^ 32) × (125 * k < n) × (n ≤ length list.now) × (512 * (from + k) ≤ length buffer.old) }
    ensures { buffer.new ≡ written buffer.old (512 * (from + k - 1))
        (block_bytes (from + k) (list_block n list.now k)) }
{
    let first = 125 * k;
    let last = (first + 125).min(n);
    let number = from + k;
    let at = 512 * (number - 1);
    fill_block(&mut buffer[at..at + 512], number as u32, &list[first..last]);
}

// All blocks of these numbers, each of which has 32 bits.
pub fn put_list(buffer: &mut [u8], from: usize, list: &[u32], n: usize)
    requires { (0 < from) × (n < 2 ^ 32) × (from + table_blocks list_table n ≤ 2 ^ 32) × (n ≤ length list.now) ×
        (512 * (from - 1 + table_blocks list_table n) ≤ length buffer.old) }
    ensures buffer_after { buffer.new ≡ written buffer.old (512 * (from - 1))
        (table_bytes list_table n (λ i j. at list.now i) from (table_blocks list_table n)) }
    ensures words { Words list.now }
{
    for k in 0..table_blocks(LIST, n) {
        put_list_block(buffer, from, list, n, k);
    }
}
