// What is left after a division, what a rounding adds for it to the whole part, and a division to nearest.
ghost use Rattle.std.specs.Prelude.{◌≡◌, ◌<◌, ◌^◌};
ghost use Rattle.std.specs.Float.Ieee.Nearest.{closest};
ghost use Rattle.doubles_spec.specs.Forms.{rest_by, added_away, added_nearest};

use doubles_spec::Rest;

// What is left after a division by `unit`, of which `left` is the remainder.
pub fn rest_by(left: u64, unit: u64) -> Rest
    requires { left < 2 ^ 63 }
    ensures { result ≡ rest_by left unit }
{
    if left == 0 {
        return Rest::Nothing;
    }
    if left * 2 < unit {
        return Rest::LessThanHalf;
    }
    if left * 2 == unit {
        return Rest::Half;
    }
    Rest::MoreThanHalf
}

// What rounding away from zero adds to the whole part.
pub fn added_away(rest: Rest) -> u64
    ensures { result ≡ added_away rest }
{
    match rest {
        Rest::Nothing => 0,
        Rest::LessThanHalf => 1,
        Rest::Half => 1,
        Rest::MoreThanHalf => 1,
    }
}

// What rounding to nearest adds to the whole part, ties to even.
#[tactic(auto, unfolding(doubles_spec::specs::Forms::added_nearest))]
pub fn added_nearest(whole: u64, rest: Rest) -> u64
    ensures { result ≡ added_nearest whole rest }
{
    match rest {
        Rest::Nothing => 0,
        Rest::LessThanHalf => 0,
        Rest::Half => whole % 2,
        Rest::MoreThanHalf => 1,
    }
}

// size ÷ unit to the nearest whole number, ties to even.
pub fn closest(size: u64, unit: u64) -> u64
    requires size_bound { size < 2 ^ 63 }
    requires unit_nonzero { 0 < unit }
    ensures { result ≡ closest size unit }
{
    let whole = size / unit;
    let rest = rest_by(size % unit, unit);
    whole + added_nearest(whole, rest)
}
