// What Bounds does once its checks have passed. The lists are numbers; each function that works on one cell takes them as what they stand for.
ghost use Rattle.std.specs.Prelude.{◌≡◌, ◌<◌, length, set};
ghost use Rattle.numbers.specs.Lists.{at};
ghost use Rattle.bounds_spec.specs.Ratios.{air_of, ratio_of, least_of, most_of};
ghost use Rattle.bounds_spec.specs.Bounds.{mixing, bounds, bounds_call, converted, bounds_verdict, BoundsFits, BoundsContract};

use bounds_spec::{AirMass, CellBounds, FieldRatios, Ratio};
use cell_bounds::masses::bounds_of;
use cell_bounds::ratios::{larger, smaller};

// The smallest low ratio and the largest high ratio of the field.
fn field_ratios(low_ratios: &[u32], high_ratios: &[u32]) -> FieldRatios
    requires { (0 < length low_ratios.now) × (length high_ratios.now ≡ length low_ratios.now) }
    ensures { (result.smallest_low.0 ≡ least_of (at low_ratios.now) (length low_ratios.now)) ×
        (result.largest_high.0 ≡ most_of (at high_ratios.now) (length low_ratios.now)) }
{
    let mut smallest = Ratio(low_ratios[0]);
    let mut largest = Ratio(high_ratios[0]);
    for c in 0..low_ratios.len() {
        smallest = smaller(smallest, Ratio(low_ratios[c]));
        largest = larger(largest, Ratio(high_ratios[c]));
    }
    FieldRatios {
        smallest_low: smallest,
        largest_high: largest,
    }
}

// Stores the bounds of a cell.
fn put_cell(
    cell: CellBounds,
    c: usize,
    lows: &mut [u32],
    highs: &mut [u32],
    safe_lows: &mut [u32],
    safe_highs: &mut [u32],
)
    requires { (c < length lows.old) × (c < length highs.old) × (c < length safe_lows.old) × (c < length safe_highs.old) }
    ensures { (lows.new ≡ set lows.old c cell.low.0) × (highs.new ≡ set highs.old c cell.high.0) ×
        (safe_lows.new ≡ set safe_lows.old c cell.safe_low.0) ×
        (safe_highs.new ≡ set safe_highs.old c cell.safe_high.0) }
{
    let low = cell.low;
    let high = cell.high;
    let safe_low = cell.safe_low;
    let safe_high = cell.safe_high;
    lows[c] = low.0;
    highs[c] = high.0;
    safe_lows[c] = safe_low.0;
    safe_highs[c] = safe_high.0;
}

// The four lists of a call that has passed its checks.
pub fn convert(
    air: &[u32],
    low_ratios: &[u32],
    high_ratios: &[u32],
    lows: &mut [u32],
    highs: &mut [u32],
    safe_lows: &mut [u32],
    safe_highs: &mut [u32],
)
    requires { BoundsFits
        (bounds_call (mixing air.now low_ratios.now high_ratios.now)
        (bounds lows.old highs.old safe_lows.old safe_highs.old)) }
    ensures { bounds lows.new highs.new safe_lows.new safe_highs.new ≡
        converted (mixing air.now low_ratios.now high_ratios.now) }
{
    let field = field_ratios(low_ratios, high_ratios);
    for c in 0..air.len() {
        let cell = bounds_of(
            AirMass(air[c]),
            Ratio(low_ratios[c]),
            Ratio(high_ratios[c]),
            field,
        );
        put_cell(cell, c, lows, highs, safe_lows, safe_highs);
    }
}
