// The operation Bounds: a field's bounds from air masses and mixing ratios. Public: `bounds`; the checks and the work below it are in modules
// of their own, for this crate alone. Relies on `cell_bounds`, `bounds_spec` and `numbers`.
#![tactic(auto)]

ghost use Rattle.bounds_spec.specs.Bounds.{mixing, bounds as bounds_lists, bounds_call, BoundsContract};

use numbers::Refusal;

mod verdict;
mod work;

// Writes the low, high, safe low and safe high of every cell, from its air mass and its low and high ratio in parts of 1048576. A refused call
// writes nothing.
pub fn bounds(
    air: &[u32],
    low_ratios: &[u32],
    high_ratios: &[u32],
    lows: &mut [u32],
    highs: &mut [u32],
    safe_lows: &mut [u32],
    safe_highs: &mut [u32],
) -> Result<(), Refusal>
    ensures { BoundsContract
        (bounds_call (mixing air.now low_ratios.now high_ratios.now)
        (bounds_lists lows.old highs.old safe_lows.old safe_highs.old)) result
        (bounds_lists lows.new highs.new safe_lows.new safe_highs.new) }
{
    verdict::verdict(
        air,
        low_ratios,
        high_ratios,
        lows.len(),
        highs.len(),
        safe_lows.len(),
        safe_highs.len(),
    )?;
    work::convert(
        air,
        low_ratios,
        high_ratios,
        lows,
        highs,
        safe_lows,
        safe_highs,
    );
    Ok(())
}
