// The columns of the scratch's rows: the only functions that know where they stand are these.
ghost use Rattle.std.specs.Prelude.{◌≡◌, ◌<◌, ◌^◌, pos};
ghost use Rattle.std.specs.Int.{w64};
ghost use Rattle.std.proofs.Common.{to_z, of_z};
ghost use Rattle.numbers.specs.Signed.{over};
ghost use Rattle.scratch_spec.specs.Columns.{number_of, offset, half, with_half, part, with_part, Small, Storable, col, num, InRow, Stored};

use numbers::arith::{above, signed};
use scratch_spec::{Column, WIDTH};

// The low half of a number's bits.
fn low_half(z: i64) -> i64
    ensures { result ≡ pos (half 0 (of_z w64 z)) }
{
    z & 4294967295
}

// Where in a row a column stands.
fn offset(column: Column) -> usize
    ensures { result ≡ offset (number_of column) }
{
    match column {
        Column::Mass => 0,
        Column::Low | Column::First => 1,
        Column::High | Column::Next => 2,
        Column::Weight => 3,
    }
}

// What a number of a row holds of a column, or 0 if that is below 0: all of it, or the low or the high half of its bits.
fn part_of(column: Column, z: i64) -> u64
    ensures { (result ≡ over (part (number_of column) z)) × (result < 2 ^ 63) }
{
    match column {
        Column::Mass => above(z),
        Column::Low | Column::High | Column::Weight => above(low_half(z)),
        Column::First | Column::Next => above(low_half(z >> 32)),
    }
}

// The same number with v for the low half of its bits, and with v for the high half.
fn with_low(z: i64, v: u64) -> i64
    requires { v < 2 ^ 31 }
    ensures { result ≡ to_z w64 (with_half 0 (of_z w64 z) v) }
{
    z - low_half(z) + signed(v)
}

fn with_high(z: i64, v: u64) -> i64
    requires { v < 2 ^ 31 }
    ensures { result ≡ to_z w64 (with_half 1 (of_z w64 z) v) }
{
    signed(v) * 4294967296 + low_half(z)
}

// The same number with v for what it holds of a column.
fn with_part(column: Column, z: i64, v: u64) -> i64
    requires { (v < 2 ^ 63) × Small (number_of column) v }
    ensures { result ≡ with_part (number_of column) z v }
{
    match column {
        Column::Mass => signed(v),
        Column::Low | Column::High | Column::Weight => with_low(z, v),
        Column::First | Column::Next => with_high(z, v),
    }
}

// What node u has in a column, or 0 if that is below 0.
pub fn get_above(s: &[i64], column: Column, u: usize) -> u64
    requires { InRow (number_of column) s.now u }
    ensures { (result ≡ num (number_of column) s.now u) × (result < 2 ^ 63) }
{
    part_of(column, s[WIDTH * u + offset(column)])
}

// What it has there, with its sign.
pub fn get_signed(s: &[i64], column: Column, u: usize) -> i64
    requires { InRow (number_of column) s.now u }
    ensures { result ≡ col (number_of column) s.now u }
{
    match column {
        Column::Mass => s[WIDTH * u],
        _ => signed(get_above(s, column, u)),
    }
}

pub fn put(s: &mut [i64], column: Column, u: usize, v: u64)
    requires { InRow (number_of column) s.old u × (v < 2 ^ 63) × Small (number_of column) v }
    ensures { Stored (number_of column) u (pos v) s.old s.new }
{
    let i = WIDTH * u + offset(column);
    s[i] = with_part(column, s[i], v);
}

pub fn put_signed(s: &mut [i64], column: Column, u: usize, z: i64)
    requires { InRow (number_of column) s.old u × Storable (number_of column) z }
    ensures { Stored (number_of column) u z s.old s.new }
{
    match column {
        Column::Mass => s[WIDTH * u] = z,
        _ => put(s, column, u, above(z)),
    }
}
