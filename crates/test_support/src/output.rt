// The parts that lines of text are printed by.
ghost use Rattle.std.specs.Prelude.{◌<◌, ◌≤◌, length};

use numbers::Refusal;
use std::fmt;

// The descriptor of standard output.
pub const STANDARD_OUTPUT: i32 = 1;

// Standard output, for `write!` and `writeln!`. It goes by the kit's `io`, whose write assumes one contract of the C library, where `println!` assumes
// two more; a write that fails is let go, as there.
#[derive(Clone, Copy)]
pub struct Output;

impl fmt::Write for Output {
    fn write_str(&mut self, s: &str) -> fmt::Result {
        io::write_all(STANDARD_OUTPUT, s.as_bytes());
        Ok(())
    }
}

// A sign, if the number is below 0.
fn print_sign(x: i64) {
    if x < 0 {
        io::write_all(STANDARD_OUTPUT, b"-");
    }
}

// A space and a number.
pub fn print_number(x: u64) {
    io::write_all(STANDARD_OUTPUT, b" ");
    io::print_decimal(STANDARD_OUTPUT, x);
}

// A space and a signed number.
pub fn print_signed(x: i64) {
    io::write_all(STANDARD_OUTPUT, b" ");
    print_sign(x);
    io::print_decimal(STANDARD_OUTPUT, x.unsigned_abs());
}

// A name, a space and a number.
pub fn print_named(name: &[u8], x: u64) {
    io::write_all(STANDARD_OUTPUT, name);
    print_number(x);
}

// The end of a line.
pub fn end_line() {
    io::write_all(STANDARD_OUTPUT, b"\n");
}

// A refusal's number and place.
pub fn print_refusal(refusal: Refusal) {
    print_named(b"refused", u64::from(refusal.number));
    print_number(u64::from(refusal.place));
}

// The line of a refusal.
pub fn show_refusal(refusal: Refusal) {
    print_refusal(refusal);
    end_line();
}

// The line of a case of no known kind.
pub fn show_no_kind() {
    io::write_all(STANDARD_OUTPUT, b"no such kind\n");
}

// A line that says that a file is missing.
pub fn show_no_file() {
    io::write_all(STANDARD_OUTPUT, b"no such file\n");
}

// The sum of masses.
fn sum(xs: &[u32]) -> u64
    requires { length xs.now ≤ 600 }
{
    let mut sum: u64 = 0;
    for x in xs {
        sum += u64::from(*x);
    }
    sum
}

// The check number with one mass more, at a place counted from 1.
fn weighed(check: u64, place: usize, x: u32) -> u64
    requires { (check < 1000000007) × (place ≤ 600) }
    ensures { result < 1000000007 }
{
    (check + place as u64 * u64::from(x)) % 1000000007
}

// The check number: the sum of each mass times its place, counted from 1, modulo 1000000007.
fn check_number(xs: &[u32]) -> u64
    requires { length xs.now ≤ 600 }
{
    let mut check: u64 = 0;
    for (i, x) in xs.iter().enumerate() {
        check = weighed(check, i + 1, *x);
    }
    check
}

// The sum of masses and their check number.
pub fn print_check(xs: &[u32])
    requires { length xs.now ≤ 600 }
{
    print_named(b" sum", sum(xs));
    print_named(b" check", check_number(xs));
}

// What a repair gives: outcome, total, change and the sum shared out.
pub fn print_repair(outcome: u32, total: u32, change: u64, shared: u64) {
    print_number(u64::from(outcome));
    print_number(u64::from(total));
    print_number(change);
    print_number(shared);
}

// Each number of a list.
pub fn print_each(xs: &[u32]) {
    for x in xs {
        print_number(u64::from(*x));
    }
}

// Up to 16 numbers, or of more their sum and check number.
pub fn print_list(xs: &[u32])
    requires { length xs.now ≤ 600 }
{
    if 16 < xs.len() {
        print_check(xs);
    } else {
        print_each(xs);
    }
}

// A list as a line has it: up to 16 numbers, or of more their sum and check number.
#[derive(Clone, Copy)]
pub struct Masses<'a>(pub &'a [u32]);

impl<'a> fmt::Display for Masses<'a> {
    fn fmt<W: fmt::Write>(&self, f: &mut fmt::Formatter<W>) -> fmt::Result {
        if 16 < self.0.len() {
            let mut sum: u64 = 0;
            let mut check: u64 = 0;
            for (i, x) in self.0.iter().enumerate() {
                sum = sum.saturating_add(u64::from(*x));
                check = check.saturating_add(
                    (i as u64).saturating_add(1).saturating_mul(u64::from(*x)),
                ) % 1000000007;
            }
            return write!(f, " sum {sum} check {check}");
        }
        for x in self.0 {
            write!(f, " {x}")?;
        }
        Ok(())
    }
}
