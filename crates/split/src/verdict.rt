// Split's checks, one function each, and their chain in 01's order. No sum can overflow, whatever the lists hold.
ghost use Rattle.std.specs.Prelude.{◌≡◌, ◌&&◌, ◌≤◌, ◌<◌, leb, pos, length};
ghost use Rattle.std.specs.Int.Signed.{le_z};
ghost use Rattle.numbers.specs.Lists.{at_ℤ};
ghost use Rattle.numbers.specs.Checks.{first, every_from, max_total};
ghost use Rattle.split.specs.Sums.{sum_over, NonNegative, Summable};
ghost use Rattle.caas_spec.specs.Operation.{ordered_at, check_lengths, check_split_order, check_highs, check_weights, check_split_reach, split_shape_checks, split_value_checks, split_verdict, split_call};

use numbers::Refusal;
use numbers::arith::signed;
use numbers::checks::{check_count, unless};
use numbers::lists::sum_above;

// 3: lists of other lengths.
#[tactic(auto, unfolding(caas_spec::specs::Operation::check_lengths))]
fn check_lengths(
    n: usize,
    lows: usize,
    highs: usize,
    weights: usize,
    masses: usize,
) -> Result<(), Refusal>
    ensures { result ≡ check_lengths n lows highs weights masses }
{
    unless(lows == n && highs == n && weights == n && masses == n, 3, 0)
}

// 5: the first item with low below 0 or above high.
fn check_order(lows: &[i64], highs: &[i64]) -> Result<(), Refusal>
    requires { (length highs.now ≡ length lows.now) × (length lows.now ≤ 512) }
    ensures { result ≡ check_split_order (length lows.now) lows.now highs.now }
{
    for (u, low) in lows.iter().enumerate() {
        if !(0 <= *low && *low <= highs[u]) {
            return Err(Refusal::at(5, u));
        }
    }
    Ok(())
}

// No number of a list is below 0.
fn all_nonnegative(xs: &[i64]) -> bool
    ensures { result ≡ every_from (λ u. le_z (pos 0) (at_ℤ xs.now u)) 0 (length xs.now) }
{
    for x in xs {
        if *x < 0 {
            return false;
        }
    }
    true
}

// What a list's numbers have above 0 adds up to at most 2147483647.
fn sum_fits(xs: &[i64]) -> bool
    ensures { result ≡ leb (sum_over xs.now) max_total }
{
    sum_above(xs) <= 2147483647
}

// 6: highs adding to over that, where none is below 0.
fn check_highs(highs: &[i64]) -> Result<(), Refusal>
    requires { NonNegative highs.now }
    ensures { result ≡ check_highs (length highs.now) highs.now }
{
    unless(sum_fits(highs), 6, 0)
}

// 7: a weight below 0, or weights adding to over that.
fn check_weights(weights: &[i64]) -> Result<(), Refusal>
    ensures { result ≡ check_weights (length weights.now) weights.now }
{
    unless(all_nonnegative(weights) && sum_fits(weights), 7, 0)
}

// 8: the total outside the sums of lows and highs, where none is below 0 and the sums fit.
fn check_reach(lows: &[i64], highs: &[i64], total: i64) -> Result<(), Refusal>
    requires summable { Summable lows.now × Summable highs.now }
    requires highs_len { length highs.now ≡ length lows.now }
    ensures { result ≡ check_split_reach (length lows.now) lows.now highs.now total }
{
    let low = signed(sum_above(lows));
    let high = signed(sum_above(highs));
    unless(low <= total && total <= high, 8, 0)
}

// 5 to 8.
fn value_checks(lows: &[i64], highs: &[i64], weights: &[i64], total: i64) -> Result<(), Refusal>
    requires { (length lows.now ≤ 512) × (length highs.now ≡ length lows.now) × (length weights.now ≡ length lows.now) }
    ensures { result ≡ first (split_value_checks (length lows.now) lows.now highs.now weights.now total) }
{
    check_order(lows, highs)?;
    check_highs(highs)?;
    check_weights(weights)?;
    check_reach(lows, highs, total)
}

// All of Split's checks, in 01's order.
#[tactic(auto, unfolding(caas_spec::specs::Operation::split_verdict))]
pub fn verdict(
    targets: &[i64],
    lows: &[i64],
    highs: &[i64],
    weights: &[i64],
    total: i64,
    masses: &[i64],
) -> Result<(), Refusal>
    ensures { result ≡ split_verdict
        (split_call targets.now lows.now highs.now weights.now total masses.now) }
{
    let n = targets.len();
    check_count(n)?;
    check_lengths(n, lows.len(), highs.len(), weights.len(), masses.len())?;
    value_checks(lows, highs, weights, total)
}
