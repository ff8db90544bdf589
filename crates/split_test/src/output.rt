// What a call answered, and the masses after it, as text.
ghost use Rattle.std.specs.Prelude.{◌<◌};

use numbers::lists::sum_above;
use std::fmt;

// A number modulo 1000000007.
fn residue(x: i64) -> u64
    ensures { result < 1000000007 }
{
    let left = x.unsigned_abs() % 1000000007;
    if x < 0 {
        (1000000007 - left) % 1000000007
    } else {
        left
    }
}

// The check number with one mass more, at an index.
fn weighed(check: u64, i: usize, x: i64) -> u64
    ensures { result < 1000000007 }
{
    (check % 1000000007 + (i as u64 % 1000000007 + 1) * residue(x)) % 1000000007
}

// The check number: the sum of each mass times its place, counted from 1, modulo 1000000007.
fn check_number(xs: &[i64]) -> u64 {
    let mut check: u64 = 0;
    for (i, x) in xs.iter().enumerate() {
        check = weighed(check, i, *x);
    }
    check
}

// Masses as a line has them: up to 16, or of more the sum of what they have above 0, or 2 ^ 31 if that is less, and the check number, which counts
// masses below 0 too.
#[derive(Clone, Copy)]
pub struct Masses<'a>(pub &'a [i64]);

impl<'a> fmt::Display for Masses<'a> {
    fn fmt<W: fmt::Write>(&self, f: &mut fmt::Formatter<W>) -> fmt::Result {
        if 16 < self.0.len() {
            return write!(
                f,
                " sum {} check {}",
                sum_above(self.0),
                check_number(self.0)
            );
        }
        for x in self.0 {
            write!(f, " {x}")?;
        }
        Ok(())
    }
}
