// The check words, the checks and the payload's words of a block, and writing a block.
ghost use Rattle.std.specs.Prelude.{◌≡◌, ◌+◌, ◌-◌, ◌*◌, ◌^◌, ◌<◌, ◌≤◌, ◌++◌, length, drop, nat_eq};
ghost use Rattle.numbers.specs.Checks.{every_from};
ghost use Rattle.blocks.specs.Words.{words_bytes};
ghost use Rattle.blocks.specs.Blocks.{word_of, payload_word, first_check, second_check, is_sound, check_sound, check_spare, check_block, head_word, block_bytes};

use crate::words::{put_word, word_at};
use numbers::Refusal;
use numbers::checks::unless;

// The two check words of a block.
#[derive(Clone, Copy)]
pub struct CheckWords {
    pub first: u32,
    pub second: u32,
}

// The check words that a block's first 126 words call for.
pub fn check_words(block: &[u8]) -> CheckWords
    requires { length block.now ≡ 512 }
    ensures { (result.first ≡ first_check (word_of block.now)) × (result.second ≡ second_check (word_of block.now)) }
{
    let mut first = 0u32;
    let mut second = 0u32;
    for i in 0..126 {
        first = first.wrapping_add(word_at(block, 4 * i));
        second = second.wrapping_add(first);
    }
    CheckWords { first, second }
}

// Whether a block has the number and its check words.
#[tactic(auto, unfolding(crate::specs::Blocks::is_sound, crate::specs::Blocks::word_of))]
pub fn is_sound(block: &[u8], number: usize) -> bool
    requires { length block.now ≡ 512 }
    ensures { result ≡ is_sound block.now number }
{
    let s = check_words(block);
    word_at(block, 0) as usize == number
        && word_at(block, 504) == s.first
        && word_at(block, 508) == s.second
}

// 15: block `number` has its number and its check words.
#[tactic(auto, unfolding(crate::specs::Blocks::check_sound))]
pub fn check_sound(file: &[u8], number: usize) -> Result<(), Refusal>
    requires { (0 < number) × (512 * number ≤ length file.now) × (number < 2 ^ 32) }
    ensures { result ≡ check_sound file.now number }
{
    let at = 512 * (number - 1);
    let end = at + 512;
    unless(is_sound(&file[at..end], number), 15, number as u32)
}

// Word k of block `number`'s payload.
#[tactic(auto, unfolding(crate::specs::Blocks::payload_word))]
pub fn payload_word(file: &[u8], number: usize, k: usize) -> u32
    requires { (0 < number) × (512 * number ≤ length file.now) × (k < 125) }
    ensures { result ≡ payload_word file.now number k }
{
    word_at(crate::payload(file, number), 4 * k)
}

// Whether the payload words from `used` on are 0.
fn is_spare(file: &[u8], used: usize, number: usize) -> bool
    requires { (0 < number) × (512 * number ≤ length file.now) × (used ≤ 125) }
    ensures { result ≡ every_from (λ k. nat_eq (payload_word file.now number k) 0) used (125 - used) }
{
    for k in used..125 {
        if payload_word(file, number, k) != 0 {
            return false;
        }
    }
    true
}

// 16: the payload words of block `number` from `used` on are 0.
#[tactic(auto, unfolding(crate::specs::Blocks::check_spare))]
pub fn check_spare(file: &[u8], used: usize, number: usize) -> Result<(), Refusal>
    requires { (0 < number) × (512 * number ≤ length file.now) × (number < 2 ^ 32) × (used ≤ 125) }
    ensures { result ≡ check_spare file.now used number }
{
    unless(is_spare(file, used, number), 16, number as u32)
}

// 15, then 16.
#[tactic(auto, unfolding(crate::specs::Blocks::check_block))]
pub fn check_block(file: &[u8], used: usize, number: usize) -> Result<(), Refusal>
    requires { (0 < number) × (512 * number ≤ length file.now) × (number < 2 ^ 32) × (used ≤ 125) }
    ensures { result ≡ check_block file.now (λ _. used) number }
{
    check_sound(file, number)?;
    check_spare(file, used, number)
}

// Word i of a block to be written, before its check words.
#[tactic(auto, unfolding(crate::specs::Blocks::head_word))]
fn head_word(number: u32, payload: &[u32], i: usize) -> u32
    ensures { result ≡ head_word number payload.now i }
{
    if i == 0 {
        return number;
    }
    if i - 1 < payload.len() {
        payload[i - 1]
    } else {
        0
    }
}

// Writes the words of a block before its check words.
fn put_words(block: &mut [u8], number: u32, payload: &[u32])
    requires { length block.old ≡ 512 }
    ensures { block.new ≡ words_bytes 126 (head_word number payload.now) ++ drop 504 block.old }
{
    for k in 0..126 {
        put_word(block, 4 * k, head_word(number, payload, k));
    }
}

// Writes a whole block.
pub fn fill_block(block: &mut [u8], number: u32, payload: &[u32])
    requires { length block.old ≡ 512 }
    ensures { block.new ≡ block_bytes number payload.now }
{
    put_words(block, number, payload);
    let s = check_words(block);
    put_word(block, 504, s.first);
    put_word(block, 508, s.second);
}
