// What a double gives as a target, a low or a high: its product with 2^k, rounded, if that is in range.
ghost use Rattle.std.specs.Prelude.{◌≡◌, ◌≤◌, pos};
ghost use Rattle.numbers.specs.Roundings.{signed};
ghost use Rattle.doubles_spec.specs.Forms.{in_target, in_bound, target_field, low_field, high_field};

use crate::cases::scaled;
use doubles_spec::FieldFault;
use rounded_division::rounding::{added_away, added_nearest};

// A bound's units, if they are in range.
pub fn in_bound(q: u64) -> Result<u32, FieldFault>
    ensures { result ≡ in_bound (pos q) }
{
    if q < 0x8000_0000 {
        Ok(q as u32)
    } else {
        Err(FieldFault::OutOfRange)
    }
}

// A target's units, if they are in range.
pub fn in_target(negative: bool, q: u64) -> Result<i32, FieldFault>
    ensures { result ≡ in_target (signed negative q) }
{
    if negative {
        if q == 0 {
            Ok(0)
        } else if q <= 0x8000_0000 {
            Ok(-1 - ((q - 1) as i32))
        } else {
            Err(FieldFault::OutOfRange)
        }
    } else if q < 0x8000_0000 {
        Ok(q as i32)
    } else {
        Err(FieldFault::OutOfRange)
    }
}

// Rounded to nearest, ties to even.
#[tactic(auto, using(doubles_spec::proofs::FieldLaws::target_product, doubles_spec::proofs::FieldLaws::nearest_le))]
pub fn target_field(x: f64, k: u32) -> Result<i32, FieldFault>
    requires { k ≤ 30 }
    ensures { result ≡ target_field k x }
{
    let target = scaled(x, k).ok_or(FieldFault::NotFinite)?;
    if target.whole >= 0x1_0000_0000 {
        return Err(FieldFault::OutOfRange);
    }
    in_target(
        target.negative,
        target.whole + added_nearest(target.whole, target.rest),
    )
}

// Rounded up.
pub fn low_field(x: f64, k: u32) -> Result<u32, FieldFault>
    requires { k ≤ 30 }
    ensures { result ≡ low_field k x }
{
    let low = scaled(x, k).ok_or(FieldFault::NotFinite)?;
    if low.negative {
        if low.whole == 0 {
            return Ok(0);
        }
        return Err(FieldFault::OutOfRange);
    }
    if low.whole >= 0x8000_0000 {
        return Err(FieldFault::OutOfRange);
    }
    in_bound(low.whole + added_away(low.rest))
}

// Rounded down.
#[tactic(auto, using(doubles_spec::proofs::FieldLaws::high_product))]
pub fn high_field(x: f64, k: u32) -> Result<u32, FieldFault>
    requires { k ≤ 30 }
    ensures { result ≡ high_field k x }
{
    let high = scaled(x, k).ok_or(FieldFault::NotFinite)?;
    if high.negative {
        Err(FieldFault::OutOfRange)
    } else {
        in_bound(high.whole)
    }
}
