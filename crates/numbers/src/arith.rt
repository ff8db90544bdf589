// Numbers: what a signed number has above 0, signed differences, the rounded quotient.
ghost use Rattle.std.specs.Prelude.{◌≡◌, ◌<◌, ◌^◌, pos, ◌-ℤ◌};
ghost use Rattle.numbers.specs.Signed.{over};
ghost use Rattle.numbers.specs.Quota.{quota};

// What a number has above 0.
pub fn above(x: i64) -> u64
    ensures { result ≡ over x }
{
    if x < 0 { 0 } else { x as u64 }
}

// An unsigned number as a signed one. It stands beside `as`, since by its contract what callers read is `pos x`, and not the cast's bits.
pub fn signed(x: u64) -> i64
    requires { x < 2 ^ 63 }
    ensures { result ≡ pos x }
{
    x as i64
}

// A signed difference.
pub fn difference(a: u64, b: u64) -> i64
    requires { (a < 2 ^ 63) × (b < 2 ^ 63) }
    ensures { result ≡ pos a -ℤ pos b }
{
    a as i64 - b as i64
}

// A mass minus a target: a cell's correction.
pub fn minus(mass: u32, target: i32) -> i64
    ensures { result ≡ pos mass -ℤ target }
{
    i64::from(mass) - i64::from(target)
}

// The rounded quotient, 0 where there is nothing to divide by. The bounds leave room for the doubled operands.
pub fn quotient(a: u64, b: u64) -> u64
    requires { (a < 2 ^ 62) × (b < 2 ^ 31) }
    ensures { result ≡ quota a b }
{
    if b == 0 {
        return 0;
    }
    (2 * a + b) / (2 * b)
}
