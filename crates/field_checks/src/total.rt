// 8, and the outcome: a total beside the sums of the bounds.
ghost use Rattle.std.specs.Prelude.{◌≡◌, ◌≤◌, length};
ghost use Rattle.numbers.specs.Lists.{sum};
ghost use Rattle.qlt_spec.specs.Field.{outcome_by};
ghost use Rattle.qlt_spec.specs.Checks.{check_reach};

use numbers::Refusal;
use numbers::checks::unless;
use numbers::lists::sum_of;
use qlt_spec::Outcome;

// 8: the total outside the sums of safe lows and safe highs.
#[tactic(auto, unfolding(qlt_spec::specs::Checks::check_reach))]
pub fn check_reach(safe_lows: &[u32], safe_highs: &[u32], total: u32) -> Result<(), Refusal>
    requires { (length safe_lows.now ≤ 1024) × (length safe_highs.now ≤ 1024) }
    ensures { result ≡ check_reach safe_lows.now safe_highs.now total }
{
    let least = sum_of(safe_lows);
    let most = sum_of(safe_highs);
    unless(least <= u64::from(total) && u64::from(total) <= most, 8, 0)
}

// 01's outcome: whether the total lies between the sums of lows and highs, or is less, or is more.
pub fn outcome_of(lows: &[u32], highs: &[u32], total: u32) -> Outcome
    requires { (length lows.now ≤ 1024) × (length highs.now ≤ 1024) }
    ensures { result ≡ outcome_by (sum lows.now) (sum highs.now) total }
{
    if u64::from(total) < sum_of(lows) {
        Outcome::Below
    } else if sum_of(highs) < u64::from(total) {
        Outcome::Above
    } else {
        Outcome::Attainable
    }
}
