// The operation Split: ClipAndAssuredSum on one group of items. Public: `split`; the checks and the work below it are in modules of their
// own, for this crate alone. Relies on `walks`, `scratch_spec`, `caas_spec` and `numbers`.
#![tactic(auto)]

ghost use Rattle.caas_spec.specs.Operation.{split_call, SplitContract};

use numbers::Refusal;

mod verdict;
mod work;

// Splits `total` among the items, each with a target, a low, a high and a weight, writes their masses and gives 01's d. A refused call
// writes nothing.
pub fn split(
    targets: &[i64],
    lows: &[i64],
    highs: &[i64],
    weights: &[i64],
    total: i64,
    masses: &mut [i64],
) -> Result<i64, Refusal>
    ensures { SplitContract
        (split_call targets.now lows.now highs.now weights.now total masses.old) result
        masses.new }
{
    verdict::verdict(targets, lows, highs, weights, total, masses)?;
    // a row for each of 512 items, and one for the total
    let mut scratch = [0i64; 2052];
    Ok(work::split_items(targets, lows, highs, weights, total, masses, &mut scratch))
}
