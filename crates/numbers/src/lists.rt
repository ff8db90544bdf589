// Sums of lists.
ghost use Rattle.std.specs.Prelude.{◌≡◌, ◌≤◌, ◌<◌, ◌^◌, min, length};
ghost use Rattle.numbers.specs.Sums.{ℕ_adds, sum_to};
ghost use Rattle.numbers.specs.Lists.{at_ℤ, sum};
ghost use Rattle.numbers.specs.Signed.{over};

use crate::arith::above;

// The sum of what the elements have above 0, or 2 ^ 31 if it is more: no list can make it overflow.
pub fn sum_above(xs: &[i64]) -> u64
    ensures { result ≡ min (sum_to ℕ_adds (length xs.now) (λ i. over (at_ℤ xs.now i))) (2 ^ 31) }
{
    let mut sum: u64 = 0;
    for x in xs {
        sum = (sum + above(*x).min(0x8000_0000)).min(0x8000_0000);
    }
    sum
}

// The sum of a list.
pub fn sum_of(xs: &[u32]) -> u64
    requires { length xs.now ≤ 1024 }
    ensures { (result ≡ sum xs.now) × (result < 2 ^ 42) }
{
    let mut sum: u64 = 0;
    for x in xs {
        sum += u64::from(*x);
    }
    sum
}
