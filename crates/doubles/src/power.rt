// Powers of two as doubles.
ghost use Rattle.std.specs.Prelude.{false, ◌^◌, ◌≤◌};
ghost use Rattle.std.specs.Float.Ieee.Exact.{HasValue};

// 2^−k, by its bit pattern.
pub fn power(k: u32) -> f64
    requires { k ≤ 30 }
    ensures { HasValue result false 1 (2 ^ k) }
{
    f64::from_bits((1023 - u64::from(k)) << 52)
}
