// Whole numbers from text: digits, with spaces and line ends between numbers, and before a signed number a `-` or none. A number beyond
// its range, unsigned or signed of 64 bits, is read as the end of the range. Past the text, and where any other byte stands, a number is
// 0 and takes no byte.
ghost use Rattle.std.specs.Prelude.{◌≤◌, ◌<◌, length};

use numbers::arith::{difference, signed};

// The descriptor of standard input.
pub const STANDARD_INPUT: i32 = 0;

// An unsigned number, and the position behind it.
#[derive(Clone, Copy)]
pub struct Number {
    pub value: u64,
    pub next: usize,
}

// The same of a signed number.
#[derive(Clone, Copy)]
pub struct SignedNumber {
    pub value: i64,
    pub next: usize,
}

// Whether a byte stands between numbers.
fn is_separator(b: u8) -> bool {
    b == b' ' || b == b'\n'
}

// Whether a byte is a digit, or, if `digits` is false, a separator.
fn is_of(digits: bool, b: u8) -> bool {
    if digits {
        b.is_ascii_digit()
    } else {
        is_separator(b)
    }
}

// The first position from `at` on that has no digit, or, if `digits` is false, no separator.
fn past(digits: bool, text: &[u8], at: usize) -> usize
    requires { at ≤ length text.now }
    ensures { (at ≤ result) × (result ≤ length text.now) }
{
    for i in at..text.len() {
        if !is_of(digits, text[i]) {
            return i;
        }
    }
    text.len()
}

// The first position from `at` on that has no separator.
pub fn skip(text: &[u8], at: usize) -> usize
    requires { at ≤ length text.now }
    ensures { (at ≤ result) × (result ≤ length text.now) }
{
    past(false, text, at)
}

// The position behind a sign, if one stands at `at`.
fn past_sign(text: &[u8], at: usize) -> usize
    requires { at ≤ length text.now }
    ensures { (at ≤ result) × (result ≤ length text.now) }
{
    if at < text.len() && text[at] == b'-' {
        return at + 1;
    }
    at
}

// What a digit stands for.
fn digit(b: u8) -> u64
    ensures { result < 256 }
{
    u64::from(b.saturating_sub(b'0'))
}

// A number with one digit more, or 2 ^ 64 - 1 if that is less.
fn grown(value: u64, last: u64) -> u64
    requires { last < 256 }
{
    if (18446744073709551615 - last) / 10 < value {
        return 18446744073709551615;
    }
    value * 10 + last
}

// What digits stand for, or 2 ^ 64 - 1 if that is less.
fn value_of(digits: &[u8]) -> u64 {
    let mut value: u64 = 0;
    for b in digits {
        value = grown(value, digit(*b));
    }
    value
}

// The number that is as far below 0, or the least of the range if that is nearer.
fn negated(size: u64) -> i64 {
    if 9223372036854775807 < size {
        return -9223372036854775808;
    }
    difference(0, size)
}

// The number with a size and a sign, or the end of the range if that is nearer to 0.
fn with_sign(negative: bool, size: u64) -> i64 {
    if negative {
        return negated(size);
    }
    signed(size.min(9223372036854775807))
}

// The unsigned number whose digits start at `first`.
fn read_digits(text: &[u8], first: usize) -> Number
    requires { first ≤ length text.now }
    ensures { (first ≤ result.next) × (result.next ≤ length text.now) }
{
    let next = past(true, text, first);
    let value = value_of(&text[first..next]);
    Number { value, next }
}

// The unsigned number at `at`, past separators.
pub fn read_unsigned(text: &[u8], at: usize) -> Number
    requires { at ≤ length text.now }
    ensures { (at ≤ result.next) × (result.next ≤ length text.now) }
{
    let first = skip(text, at);
    read_digits(text, first)
}

// The signed number at `at`, past separators.
pub fn read_signed(text: &[u8], at: usize) -> SignedNumber
    requires { at ≤ length text.now }
    ensures { (at ≤ result.next) × (result.next ≤ length text.now) }
{
    let start = skip(text, at);
    let first = past_sign(text, start);
    let size = read_digits(text, first);
    SignedNumber {
        value: with_sign(start < first, size.value),
        next: size.next,
    }
}

// A number as one of 32 bits, or the end of that range if the number is beyond it.
pub fn word(x: u64) -> u32 {
    x.min(4294967295) as u32
}
