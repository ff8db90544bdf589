// A double's product with 2^k by the cases of IEEE 754.
ghost use Rattle.std.specs.Prelude.{Some, ◌≡◌, ◌*◌, ◌^◌, ◌≤◌, ◌<◌};
ghost use Rattle.doubles_spec.specs.Classes.{InClass};
ghost use Rattle.doubles_spec.specs.Forms.{fraction, product};
ghost use Rattle.doubles_spec.specs.declared.Class.TheVariants.{Normal};

use doubles_spec::{Class, Product, Rest};
use rounded_division::rounding::rest_by;

// The sign's bit in a bit pattern.
const SIGN: u64 = 0x8000_0000_0000_0000;

// The lowest bit of the exponent; the fraction is below it.
const EXPONENT: u64 = 0x10_0000_0000_0000;

// The smallest normal: its exponent is 1, its fraction 0.
const SMALLEST_NORMAL: u64 = 0x10_0000_0000_0000;

// Infinity: its exponent is all ones, its fraction 0.
const INFINITY: u64 = 0x7FF0_0000_0000_0000;

// The class of a double. Of its bit pattern without the sign: the larger the pattern, the larger the size. Only what is not a number
// differs from itself, and its pattern is not looked at.
pub fn class_of(x: f64) -> Class
    ensures { InClass result x }
{
    if x == x {
        let size = f64::to_bits(x) % SIGN;
        if size == 0 {
            return Class::Zero;
        }
        if size < SMALLEST_NORMAL {
            return Class::Subnormal;
        }
        if size < INFINITY {
            return Class::Normal;
        }
        return Class::Infinity;
    }
    Class::NotANumber
}

// x × 2^k, by the class of x; none if x is not finite.
pub fn scaled(x: f64, k: u32) -> Option<Product>
    requires { k ≤ 30 }
    ensures { result ≡ product k x }
{
    match class_of(x) {
        // minus zero too
        Class::Zero => Some(Product {
            negative: false,
            whole: 0,
            rest: Rest::Nothing,
        }),
        // not 0, and far less than a half: it is below 2^−1022, and k is at most 30
        Class::Subnormal => Some(Product {
            negative: x < 0.0,
            whole: 0,
            rest: Rest::LessThanHalf,
        }),
        Class::Normal => Some(normal(x, k)),
        Class::Infinity => None,
        Class::NotANumber => None,
    }
}

// A normal double × 2^k. Its size is digits × 2^exponent ÷ 2^1075.
pub fn normal(x: f64, k: u32) -> Product
    requires scale_bound { k ≤ 30 }
    requires is_normal { InClass Normal x }
    ensures { Some result ≡ product k x }
{
    let bits = f64::to_bits(x);
    let exponent = bits % SIGN / EXPONENT;
    let digits = bits % EXPONENT + EXPONENT;
    digits_at(x < 0.0, digits, exponent + u64::from(k))
}

// ±digits × 2^place ÷ 2^1075, for digits of 53 bits.
pub fn digits_at(negative: bool, digits: u64, place: u64) -> Product
    requires at_least { 2 ^ 52 ≤ digits }
    requires below { digits < 2 ^ 53 }
    ensures { Some result ≡ fraction negative (digits * 2 ^ place) (2 ^ 1075) }
{
    // 2^52 or more, which is out of every range
    if place >= 1075 {
        return Product {
            negative,
            whole: 0x10_0000_0000_0000,
            rest: Rest::Nothing,
        };
    }
    let s = 1075 - place;
    // not 0, and less than a half
    if s >= 55 {
        return Product {
            negative,
            whole: 0,
            rest: Rest::LessThanHalf,
        };
    }
    let unit = 1u64 << s;
    let rest = rest_by(digits % unit, unit);
    Product {
        negative,
        whole: digits / unit,
        rest,
    }
}
