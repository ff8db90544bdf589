// The tracer masses that an air mass and ratios give.
ghost use Rattle.std.specs.Prelude.{◌≡◌, ◌+◌, ◌*◌, ◌/◌, ◌≤◌, ◌<◌};
ghost use Rattle.bounds_spec.specs.Ratios.{parts, low_mass, high_mass, cell_bounds};

use bounds_spec::{AirMass, CellBounds, FieldRatios, Ratio, TracerMass};

// Air times ratio with so many parts more, rounded down to whole units.
fn rounded(air: AirMass, ratio: Ratio, more: u64) -> TracerMass
    requires { (ratio.0 ≤ parts) × (more < parts) }
    ensures { result.0 ≡ (air.0 * ratio.0 + more) / parts }
{
    let product = u64::from(air.0) * u64::from(ratio.0);
    TracerMass(((product + more) / 1048576) as u32)
}

// Air times ratio rounded up.
fn low_mass(air: AirMass, ratio: Ratio) -> TracerMass
    requires { ratio.0 ≤ parts }
    ensures { result ≡ low_mass air ratio }
{
    rounded(air, ratio, 1048575)
}

// The same rounded down.
fn high_mass(air: AirMass, ratio: Ratio) -> TracerMass
    requires { ratio.0 ≤ parts }
    ensures { result ≡ high_mass air ratio }
{
    rounded(air, ratio, 0)
}

// The four bounds of a cell: by its own ratios, and the safety bounds by those of the field.
pub fn bounds_of(air: AirMass, low: Ratio, high: Ratio, field: FieldRatios) -> CellBounds
    requires { (low.0 ≤ parts) × (high.0 ≤ parts) × (field.smallest_low.0 ≤ parts) × (field.largest_high.0 ≤ parts) }
    ensures { result ≡ cell_bounds air low high field }
{
    let smallest = field.smallest_low;
    let largest = field.largest_high;
    CellBounds {
        low: low_mass(air, low),
        high: high_mass(air, high),
        safe_low: low_mass(air, smallest),
        safe_high: high_mass(air, largest),
    }
}
