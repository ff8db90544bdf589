// The new total of a step, and the checks 12, 13 and 17. Each function has its whole contract.
ghost use Rattle.std.specs.Prelude.{◌≡◌, ◌≤◌, pos, ◌+ℤ◌, length};
ghost use Rattle.numbers.specs.Signed.{over};
ghost use Rattle.numbers.specs.Checks.{answered, check_total};
ghost use Rattle.kept_spec.specs.Step.{check_same_scale, check_kept};

use numbers::Refusal;
use numbers::checks::{check_total, unless};
use numbers::lists::sum_of;

// The total given plus the source.
pub fn add_source(total: u32, source: i32) -> i64
    ensures { result ≡ pos total +ℤ source }
{
    i64::from(total) + i64::from(source)
}

// 13: the new total, which is the total given plus the source.
pub fn new_total(total: u32, source: i32) -> Result<u32, Refusal>
    ensures { result ≡ answered (check_total (pos total +ℤ source)) (over (pos total +ℤ source)) }
{
    let next = add_source(total, source);
    check_total(next)?;
    Ok(next as u32)
}

// 17: a scale k above 30, or not b, that of the balance.
#[tactic(auto, unfolding(kept_spec::specs::Step::check_same_scale))]
pub fn check_same_scale(k: u32, b: u32) -> Result<(), Refusal>
    ensures { result ≡ check_same_scale k b }
{
    unless(k <= 30 && k == b, 17, 0)
}

// 12: kept masses that do not add up to the total given.
#[tactic(auto, unfolding(kept_spec::specs::Step::check_kept))]
pub fn check_kept(kept: &[u32], total: u32) -> Result<(), Refusal>
    requires { length kept.now ≤ 1024 }
    ensures { result ≡ check_kept kept.now total }
{
    unless(sum_of(kept) == u64::from(total), 12, 0)
}
