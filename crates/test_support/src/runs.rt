// Lists given in runs: a count and a number that stands that many times, until the list is full. A count below 1 is taken as 1, and the last
// run may have more than the list takes. A number beyond the range of its list is taken as the end of that range.
ghost use Rattle.std.specs.Prelude.{◌≤◌, length};

use crate::input::read_signed;
use numbers::arith::above;

// How many numbers of a run are left, the number, and the position behind the run.
#[derive(Clone, Copy)]
struct Run {
    left: u64,
    value: i64,
    next: usize,
}

// The number as a target, or the end of that range if the number is beyond it.
pub fn target(x: i64) -> i32 {
    x.max(-2147483648).min(2147483647) as i32
}

// The number as an unsigned one of 32 bits, or the end of that range if the number is beyond it.
pub fn word(x: i64) -> u32 {
    crate::input::word(above(x))
}

// The run with one number taken: of one that has none left, the next run of the text. A count below 1 counts as 1.
fn taken(text: &[u8], left: u64, value: i64, next: usize) -> Run
    requires { next ≤ length text.now }
    ensures { result.next ≤ length text.now }
{
    if 0 < left {
        return Run {
            left: left - 1,
            value,
            next,
        };
    }
    let count = read_signed(text, next);
    let number = read_signed(text, count.next);
    Run {
        left: above(count.value).max(1) - 1,
        value: number.value,
        next: number.next,
    }
}

// Puts the targets, in runs from `at` on, into the first n places of a list. Returns the position behind them.
pub fn fill_targets(text: &[u8], at: usize, n: usize, xs: &mut [i32]) -> usize
    requires { (at ≤ length text.now) × (n ≤ length xs.old) }
    ensures { result ≤ length text.now }
{
    let mut left: u64 = 0;
    let mut value: i64 = 0;
    let mut next = at;
    for i in 0..n {
        let run = taken(text, left, value, next);
        left = run.left;
        value = run.value;
        next = run.next;
        xs[i] = target(value);
    }
    next
}

// Puts a list, in runs from `at` on, into the places `start` to `end` of `xs`. Returns the position behind it.
pub fn fill(text: &[u8], at: usize, xs: &mut [u32], start: usize, end: usize) -> usize
    requires { (at ≤ length text.now) × (end ≤ length xs.old) }
    ensures { result ≤ length text.now }
{
    let mut left: u64 = 0;
    let mut value: i64 = 0;
    let mut next = at;
    for i in start..end {
        let run = taken(text, left, value, next);
        left = run.left;
        value = run.value;
        next = run.next;
        xs[i] = word(value);
    }
    next
}
