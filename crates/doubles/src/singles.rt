// A mass × 2^−k as a binary32, by its bit pattern.
ghost use Rattle.std.specs.Prelude.{◌≡◌, ◌<◌, ◌≤◌, ◌^◌};
ghost use Rattle.doubles_spec.specs.ExportSingle.{export_single};
ghost use Rattle.doubles_spec.specs.Forms.{HighestBit, significand};

use rounded_division::rounding::closest;

// The lowest bit of the exponent; the fraction is below it.
const EXPONENT: u32 = 0x80_0000;

// The position of the highest set bit.
pub fn highest_bit(mass: u32) -> u32
    requires { 0 < mass }
    ensures { HighestBit mass result }
{
    31 - u32::leading_zeros(mass)
}

// mass ÷ 2^highest, which is at least 1 and below 2, in units of 2^−23, to nearest with ties to even: 24 bits, or 2^24.
pub fn significand(mass: u32, highest: u32) -> u32
    requires mass_bound { mass < 2 ^ 31 }
    requires is_highest { HighestBit mass highest }
    ensures { result ≡ significand mass highest }
{
    closest(u64::from(mass) << 23, 1u64 << highest) as u32
}

// The binary32 nearest to mass × 2^−k, ties to even. Its pattern is the biased exponent, 127 + highest − k, and the significand without its
// leading bit. A significand of 2^24 carries into the exponent.
pub fn single(mass: u32, k: u32) -> f32
    requires mass_bound { mass < 2 ^ 31 }
    requires scale_bound { k ≤ 30 }
    ensures { result ≡ export_single mass k }
{
    if mass == 0 {
        return 0.0;
    }
    let highest = highest_bit(mass);
    f32::from_bits((126 + highest - k) * EXPONENT + significand(mass, highest))
}
