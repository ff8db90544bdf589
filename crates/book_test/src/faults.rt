// The faults of calls, and what a call is given, by its fault.
ghost use Rattle.std.specs.Prelude.{◌<◌, ◌≤◌};

use crate::buffer::{blocks_of, raise_byte, set_word};
use kept_spec::Balance;
use test_support::draws::{draw, less, more};

// What is wrong with a call: too few bytes of the buffer, the book's length told, the balance's total, a byte or a word of the book, or the
// source; or nothing.
#[derive(Clone, Copy)]
pub enum Fault {
    ByteLess,
    LengthRaised,
    NoLength,
    LongLength,
    BlockLess,
    OtherTotal,
    OtherByte,
    OtherWord,
    LargeSource,
    LeastSource,
    Nothing,
}

// The fault that is drawn with a number.
pub fn fault_of(drawn: u32) -> Fault {
    match drawn {
        0 => Fault::ByteLess,
        1 => Fault::LengthRaised,
        2 => Fault::NoLength,
        3 => Fault::LongLength,
        4 => Fault::BlockLess,
        5 => Fault::OtherTotal,
        6 => Fault::OtherByte,
        7 => Fault::OtherWord,
        8 => Fault::LargeSource,
        9 => Fault::LeastSource,
        _ => Fault::Nothing,
    }
}

// The balance given: the one standing, or one with another total.
pub fn given_balance(balance: Balance, fault: Fault) -> Balance {
    match fault {
        Fault::OtherTotal => Balance {
            total: more(balance.total),
            scale: balance.scale,
        },
        _ => balance,
    }
}

// The source given: the one drawn, or one that is refused.
pub fn given_source(drawn: u32, fault: Fault) -> i32
    requires { drawn < 2000000000 }
{
    match fault {
        Fault::LargeSource => 2000000,
        Fault::LeastSource => -2147483648,
        _ => less(drawn, 1500),
    }
}

// The book's length told: the one standing, or another.
pub fn given_length(length: usize, fault: Fault) -> usize {
    match fault {
        Fault::LengthRaised => length % 1000000 + 1,
        Fault::NoLength => 0,
        Fault::LongLength => 33280,
        Fault::BlockLess => length.saturating_sub(512),
        _ => length,
    }
}

// The bytes of the buffer that are lent: all, or all but the last.
pub fn given_room(fault: Fault) -> usize
    ensures { result ≤ 32768 }
{
    match fault {
        Fault::ByteLess => 32767,
        _ => 32768,
    }
}

// Draws a byte of the book, and another value for it. Returns the generator's state behind these draws.
fn spoil_byte(state: u32, blocks: usize, buffer: &mut [u8; 32768]) -> u32
    requires { (0 < blocks) × (blocks ≤ 64) }
{
    let position = draw(state, (512 * blocks) as u32);
    let plus = draw(position.state, 255);
    raise_byte(buffer, position.value as usize, 1 + plus.value);
    plus.state
}

// Draws a payload word of a block, and a value for it. Returns the generator's state behind these draws.
fn spoil_word(state: u32, blocks: usize, buffer: &mut [u8; 32768]) -> u32
    requires { (0 < blocks) × (blocks ≤ 64) }
{
    let block = draw(state, blocks as u32);
    let word = draw(block.state, 125);
    let value = draw(word.state, 3);
    set_word(
        buffer,
        1 + block.value as usize,
        word.value as usize,
        value.value,
    );
    value.state
}

// Spoils the book, if that is the fault. Returns the generator's state behind the fault's draws.
pub fn spoil(state: u32, fault: Fault, length: usize, buffer: &mut [u8; 32768]) -> u32 {
    let blocks = blocks_of(length);
    match fault {
        Fault::OtherByte => spoil_byte(state, blocks, buffer),
        Fault::OtherWord => spoil_word(state, blocks, buffer),
        _ => state,
    }
}
