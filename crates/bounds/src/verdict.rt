// The checks of Bounds in their order: 1, 3, 18.
ghost use Rattle.std.specs.Prelude.{◌≡◌, ◌≤◌, ◌<◌, length};
ghost use Rattle.numbers.specs.Checks.{first};
ghost use Rattle.bounds_spec.specs.Bounds.{mixing, check_bounds_lengths, ratios_ok_at, check_ratios, bounds_checks};

use bounds_spec::Ratio;
use cell_bounds::ratios::ratios_ok;
use numbers::Refusal;
use numbers::checks::{check_count, unless};

// 3: a list of another length than the air masses.
#[tactic(auto, unfolding(bounds_spec::specs::Bounds::check_bounds_lengths))]
fn check_lengths(
    n: usize,
    low_ratios: usize,
    high_ratios: usize,
    lows: usize,
    highs: usize,
    safe_lows: usize,
    safe_highs: usize,
) -> Result<(), Refusal>
    ensures { result ≡ check_bounds_lengths n low_ratios high_ratios lows highs safe_lows safe_highs }
{
    unless(
        low_ratios == n
            && high_ratios == n
            && lows == n
            && highs == n
            && safe_lows == n
            && safe_highs == n,
        3,
        0,
    )
}

// The ratios of a cell are not above 1048576.
fn ratios_ok_at(low_ratios: &[u32], high_ratios: &[u32], c: usize) -> bool
    requires { (c < length low_ratios.now) × (c < length high_ratios.now) }
    ensures { result ≡ ratios_ok_at low_ratios.now high_ratios.now c }
{
    ratios_ok(Ratio(low_ratios[c]), Ratio(high_ratios[c]))
}

// 18: the first cell with a ratio above 1048576.
fn check_ratios(low_ratios: &[u32], high_ratios: &[u32]) -> Result<(), Refusal>
    requires { (length low_ratios.now ≤ 512) × (length high_ratios.now ≡ length low_ratios.now) }
    ensures { result ≡ check_ratios (length low_ratios.now) low_ratios.now high_ratios.now }
{
    for c in 0..low_ratios.len() {
        if !ratios_ok_at(low_ratios, high_ratios, c) {
            return Err(Refusal::at(18, c));
        }
    }
    Ok(())
}

// 1, 3 and 18. Of the lists lent only the lengths count.
pub fn verdict(
    air: &[u32],
    low_ratios: &[u32],
    high_ratios: &[u32],
    lows: usize,
    highs: usize,
    safe_lows: usize,
    safe_highs: usize,
) -> Result<(), Refusal>
    ensures { result ≡ first (bounds_checks (mixing air.now low_ratios.now high_ratios.now) lows highs safe_lows
        safe_highs) }
{
    check_count(air.len())?;
    check_lengths(
        air.len(),
        low_ratios.len(),
        high_ratios.len(),
        lows,
        highs,
        safe_lows,
        safe_highs,
    )?;
    check_ratios(low_ratios, high_ratios)
}
