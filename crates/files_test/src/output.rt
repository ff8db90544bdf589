// What a call answered, and check numbers of the lists after it, as a line of text. A check number starts at 0; each entry in turn makes
// it 31 times what it was, and the entry, modulo 4294967291. A target counts as its word in two's complement.
ghost use Rattle.std.specs.Prelude.{◌<◌};

use numbers::Refusal;
use std::fmt;
use std::fmt::Write;
use test_support::output::Output;

// A check number with one entry more.
fn mixed(check: u64, entry: u32) -> u64
    ensures { result < 4294967291 }
{
    (check % 4294967291 * 31 + u64::from(entry)) % 4294967291
}

// The check number of a list. `word` says what an entry counts as.
fn check_number<T: Copy, F: Fn(T) -> u32>(xs: &[T], word: F) -> u64
    requires { F.IsAlwaysCallable word }
{
    let mut check = 0u64;
    for x in xs {
        check = mixed(check, word(*x));
    }
    check
}

// A space and the check number of a list.
pub fn print_targets(xs: &[i32]) -> fmt::Result {
    write!(Output, " {}", check_number(xs, |x| x.cast_unsigned()))
}

pub fn print_list(xs: &[u32]) -> fmt::Result {
    write!(Output, " {}", check_number(xs, |x| x))
}

pub fn print_bytes(xs: &[u8]) -> fmt::Result {
    write!(Output, " {}", check_number(xs, |x| u32::from(x)))
}

// The line of a call that writes a file: its length, or the refusal, and the check number of the buffer.
pub fn print_written(answer: Result<usize, Refusal>, buffer: &[u8]) -> fmt::Result {
    match answer {
        Ok(length) => write!(Output, "bytes {length}")?,
        Err(refusal) => write!(Output, "{refusal}")?,
    }
    print_bytes(buffer)?;
    writeln!(Output)
}
