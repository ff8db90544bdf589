// Writing a book: one without records; one record more, by the words of the block that is written, from the last block's or from none.
ghost use Rattle.std.specs.Prelude.{◌≡◌, [], suc, ◌+◌, ◌*◌, ◌-◌, ◌≤◌, ◌<◌, ◌^◌, length, set, replicate};
ghost use Rattle.numbers.specs.Lists.{list_to, written};
ghost use Rattle.blocks.specs.Words.{word_signed};
ghost use Rattle.blocks.specs.Blocks.{block_bytes, payload_word};
ghost use Rattle.book_spec.specs.Book.{entry, book, count, max_entries, book_blocks, book_bytes};
ghost use Rattle.book_spec.specs.LentBook.{held_in, HasBook, grown_buffer};

use blocks::block::{fill_block, payload_word};

// The payload words of a block.
fn load_words(file: &[u8], number: usize, words: &mut [u32])
    requires { (0 < number) × (512 * number ≤ length file.now) × (length words.old ≡ 125) }
    ensures { words.new ≡ list_to 125 (payload_word file.now number) }
{
    for i in 0..125 {
        words[i] = payload_word(file, number, i);
    }
}

// A record after `used` others.
fn enter(words: &mut [u32], used: usize, word: u32, outcome: u32, total: u32)
    requires { (length words.old ≡ 125) × (used < 41) }
    ensures { words.new ≡ set (set (set (set words.old (3 * used + 1) word) (3 * used + 2) outcome) (3 * used + 3) total) 124 (used + 1) }
{
    words[3 * used + 1] = word;
    words[3 * used + 2] = outcome;
    words[3 * used + 3] = total;
    words[124] = (used + 1) as u32;
}

// Writes a block.
pub fn put_block(buffer: &mut [u8], number: usize, words: &[u32])
    requires { (0 < number) × (512 * number ≤ length buffer.old) × (number < 2 ^ 32) }
    ensures { buffer.new ≡ written buffer.old (512 * (number - 1)) (block_bytes number words.now) }
{
    let at = 512 * (number - 1);
    fill_block(&mut buffer[at..at + 512], number as u32, words);
}

// Adds a record to a book of `blocks` blocks that is not full, in its last block or in one more, and returns how many it then has.
pub fn add_entry(buffer: &mut [u8], blocks: usize, word: u32, outcome: u32, total: u32) -> usize
    requires { HasBook buffer.old (512 * blocks) (held_in buffer.old (512 * blocks)) × (count (held_in buffer.old (512 * blocks)) < max_entries) }
    ensures { (buffer.new ≡ grown_buffer buffer.old (512 * blocks) (entry (word_signed word) outcome total)) ×
        (result ≡ book_blocks (suc (count (held_in buffer.old (512 * blocks))))) }
{
    let mut words = [0; 125];
    let used = payload_word(buffer, blocks, 124) as usize;
    if used < 41 {
        load_words(buffer, blocks, &mut words);
        enter(&mut words, used, word, outcome, total);
        put_block(buffer, blocks, &words);
        blocks
    } else {
        words[0] = payload_word(buffer, blocks, 123);
        enter(&mut words, 0, word, outcome, total);
        put_block(buffer, blocks + 1, &words);
        blocks + 1
    }
}

// A book without records: one block, which opens with the total.
pub fn put_empty(buffer: &mut [u8], total: u32)
    requires { 512 ≤ length buffer.old }
    ensures { buffer.new ≡ written buffer.old 0 (book_bytes (book total [])) }
{
    let mut words = [0u32; 125];
    words[0] = total;
    put_block(buffer, 1, &words);
}
