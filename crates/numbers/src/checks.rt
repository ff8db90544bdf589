// Checks: a test with its number and place, and the checks that several operations share. A chain of checks is a `?` for each.
ghost use Rattle.std.specs.Prelude.{◌≡◌};
ghost use Rattle.numbers.specs.Checks.{unless, check_count, check_scale, check_length, check_long, check_total};

use crate::Refusal;

// Passes if the test holds, else fails with the number and the place.
pub fn unless(ok: bool, number: u32, place: u32) -> Result<(), Refusal>
    ensures { result ≡ unless ok number place }
{
    if ok {
        Ok(())
    } else {
        Err(Refusal { number, place })
    }
}

// 1: the number of items or cells is 1 to 512.
#[tactic(auto, unfolding(crate::specs::Checks::check_count))]
pub fn check_count(n: usize) -> Result<(), Refusal>
    ensures { result ≡ check_count n }
{
    unless(0 < n && n <= 512, 1, 0)
}

// 9: the scale is at most 30.
#[tactic(auto, unfolding(crate::specs::Checks::check_scale))]
pub fn check_scale(k: u32) -> Result<(), Refusal>
    ensures { result ≡ check_scale k }
{
    unless(k <= 30, 9, 0)
}

// 3: a list has the length n.
#[tactic(auto, unfolding(crate::specs::Checks::check_length))]
pub fn check_length(k: usize, n: usize) -> Result<(), Refusal>
    ensures { result ≡ check_length k n }
{
    unless(k == n, 3, 0)
}

// 3: a list of k entries has room for n.
#[tactic(auto, unfolding(crate::specs::Checks::check_long))]
pub fn check_long(k: usize, n: usize) -> Result<(), Refusal>
    ensures { result ≡ check_long k n }
{
    unless(n <= k, 3, 0)
}

// 13: a total below 0 or above 2147483647.
#[tactic(auto, unfolding(crate::specs::Checks::check_total))]
pub fn check_total(z: i64) -> Result<(), Refusal>
    ensures { result ≡ check_total z }
{
    unless(0 <= z && z <= 2147483647, 13, 0)
}
