// Ratios: the test of a cell's two, and the smaller and the larger of two.
ghost use Rattle.std.specs.Prelude.{◌≡◌, min, max};
ghost use Rattle.bounds_spec.specs.Bounds.{ratios_ok};

use bounds_spec::Ratio;

// Neither ratio is above 1048576.
#[tactic(auto, unfolding(bounds_spec::specs::Bounds::ratios_ok))]
pub fn ratios_ok(low: Ratio, high: Ratio) -> bool
    ensures { result ≡ ratios_ok low high }
{
    low.0 <= 1048576 && high.0 <= 1048576
}

// The smaller and the larger of two.
pub fn smaller(a: Ratio, b: Ratio) -> Ratio
    ensures { result.0 ≡ min a.0 b.0 }
{
    Ratio(a.0.min(b.0))
}

pub fn larger(a: Ratio, b: Ratio) -> Ratio
    ensures { result.0 ≡ max a.0 b.0 }
{
    Ratio(a.0.max(b.0))
}
