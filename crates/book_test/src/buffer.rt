// The buffer of a book and its copy: bytes changed, and blocks made anew with other words.
ghost use Rattle.std.specs.Prelude.{◌≡◌, ◌<◌, ◌≤◌, length};

use blocks::block::{fill_block, payload_word};

// The blocks of a book with so many bytes. It has 1 to 64, so that the remainder changes none.
pub fn blocks_of(length: usize) -> usize
    ensures { (0 < result) × (result ≤ 64) }
{
    (length / 512 + 63) % 64 + 1
}

// A byte with a number added, modulo 256.
fn raised(byte: u8, plus: u32) -> u8
    requires { plus < 256 }
{
    ((u32::from(byte) + plus) % 256) as u8
}

// Adds a number to a byte.
pub fn raise_byte(bytes: &mut [u8; 32768], position: usize, plus: u32)
    requires { (position < 32768) × (plus < 256) }
{
    bytes[position] = raised(bytes[position], plus);
}

// A payload word of a block.
fn word_of(bytes: &[u8; 32768], block: usize, word: usize) -> u32
    requires { (0 < block) × (block ≤ 64) × (word < 125) }
{
    payload_word(bytes, block, word)
}

// The payload words of a block.
fn load_words(bytes: &[u8; 32768], block: usize, words: &mut [u32; 125])
    requires { (0 < block) × (block ≤ 64) }
{
    for (i, word) in words.iter_mut().enumerate() {
        *word = word_of(bytes, block, i);
    }
}

// Makes a block anew, with a number and payload words.
fn put_words(bytes: &mut [u8], block: usize, number: usize, words: &[u32; 125])
    requires { (length bytes.old ≡ 32768) × (0 < block) × (block ≤ 64) × (number ≤ 65) }
{
    let end = 512 * block;
    let start = end - 512;
    fill_block(&mut bytes[start..end], number as u32, words);
}

// Makes a block anew with another payload word.
pub fn set_word(bytes: &mut [u8; 32768], block: usize, word: usize, value: u32)
    requires { (0 < block) × (block ≤ 64) × (word < 125) }
{
    let mut words = [0u32; 125];
    load_words(bytes, block, &mut words);
    words[word] = value;
    put_words(bytes, block, block, &words);
}

// Makes a block anew with 1 added to a payload word.
pub fn raise_word(bytes: &mut [u8; 32768], block: usize, word: usize)
    requires { (0 < block) × (block ≤ 64) × (word < 125) }
{
    let value = word_of(bytes, block, word);
    set_word(bytes, block, word, std::num::wrapping_add_u32(value, 1));
}

// Makes a block anew with the next number.
pub fn renumber(bytes: &mut [u8; 32768], block: usize)
    requires { (0 < block) × (block ≤ 64) }
{
    let mut words = [0u32; 125];
    load_words(bytes, block, &mut words);
    put_words(bytes, block, block + 1, &words);
}

// Makes a block anew with 0 for each payload word after the first.
pub fn clear_records(bytes: &mut [u8; 32768], block: usize)
    requires { (0 < block) × (block ≤ 64) }
{
    let mut words = [0u32; 125];
    words[0] = word_of(bytes, block, 0);
    put_words(bytes, block, block, &words);
}
