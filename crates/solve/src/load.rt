// The columns of the scratch: filled from the lists, added up from the leaves to the root, and cleared; the masses out of them, and the
// change that they make.
ghost use Rattle.std.specs.Prelude.{◌≡◌, true, ℕ, ◌*◌, ◌^◌, ◌≤◌, ◌<◌, leb, pos, nat_abs, ◌+ℤ◌, ◌-ℤ◌, length};
ghost use Rattle.std.specs.Int.{w64};
ghost use Rattle.std.proofs.Common.{SFits};
ghost use Rattle.numbers.specs.Sums.{ℕ_adds, sum_to};
ghost use Rattle.numbers.specs.Lists.{at, at_ℤ, list_to};
ghost use Rattle.scratch_spec.specs.Columns.{number_of, width, MASS, Storable, col, num, InRow, Stored, Laid};
ghost use Rattle.qlt_spec.specs.Tree.{Valid};
ghost use Rattle.qlt_spec.specs.Operation.{cleared};
ghost use Rattle.solve_spec.specs.Gather.{Gathering, Loaded, Targets};

use numbers::arith::minus;
use scratch_spec::Column;
use walks::columns::{get_above, get_signed, put, put_signed};

// Sets a column to 0 in the rows from n on.
fn blank(s: &mut [i64], column: Column, n: usize, m: usize)
    requires { (n ≤ m) × (width * m ≤ length s.old) }
    ensures { Laid (number_of column) m (λ u. leb n u) (λ u. pos 0) m s.old s.new }
{
    for u in n..m {
        put(s, column, u, 0);
    }
}

// Adds what v has in a column to what p has there.
fn add_up(s: &mut [i64], column: Column, p: usize, v: usize)
    requires { InRow (number_of column) s.old p × InRow (number_of column) s.old v × SFits w64 (col (number_of column) s.old p +ℤ col (number_of column) s.old v) ×
        Storable (number_of column) (col (number_of column) s.old p +ℤ col (number_of column) s.old v) }
    ensures { Stored (number_of column) p (col (number_of column) s.old p +ℤ col (number_of column) s.old v) s.old s.new }
{
    let sum = get_signed(s, column, p) + get_signed(s, column, v);
    put_signed(s, column, p, sum);
}

// The cells have their values in a column; after it each node has its sum.
fn gather(parents: &[u32], n: usize, m: usize, column: Column, s: &mut [i64])
    requires m_in_bounds { m ≤ length parents.now }
    requires gathering { Gathering (at parents.now) n m (number_of column) s.old }
    ensures { Loaded (at parents.now) n m (number_of column) (col (number_of column) s.old) s.old s.new }
{
    blank(s, column, n, m);
    for v in 0..m - 1 {
        add_up(s, column, parents[v] as usize, v);
    }
}

// A column of the cells, from a list.
fn fill(s: &mut [i64], column: Column, xs: &[u32], m: usize)
    requires { (length xs.now ≤ m) × (width * m ≤ length s.old) ×
        ((u : ℕ) → u < length xs.now → at xs.now u < 2 ^ 31) }
    ensures { Laid (number_of column) m (λ u. true) (λ u. pos (at xs.now u)) (length xs.now) s.old s.new }
{
    for (u, x) in xs.iter().enumerate() {
        put(s, column, u, u64::from(*x));
    }
}

// A column of all nodes: x.
pub fn fill_with(s: &mut [i64], column: Column, x: u64, m: usize)
    requires { (x < 2 ^ 31) × (width * m ≤ length s.old) }
    ensures { Laid (number_of column) m (λ u. true) (λ u. pos x) m s.old s.new }
{
    for u in 0..m {
        put(s, column, u, x);
    }
}

// The cells' targets.
fn fill_targets(s: &mut [i64], xs: &[i32], m: usize)
    requires { (length xs.now ≤ m) × (width * m ≤ length s.old) }
    ensures { Targets m xs.now (length xs.now) s.old s.new }
{
    for (u, x) in xs.iter().enumerate() {
        put_signed(s, Column::Mass, u, i64::from(*x));
    }
}

// A column of every node, from a list of the cells' values: each node has its sum over its cells.
pub fn load(parents: &[u32], xs: &[u32], m: usize, column: Column, s: &mut [i64])
    requires m_in_bounds { m ≤ length parents.now }
    requires valid { Valid (at parents.now) (length xs.now) m }
    requires m_in_bounds_2 { width * m ≤ length s.old }
    requires xs_bound { sum_to ℕ_adds (length xs.now) (at xs.now) < 2 ^ 31 }
    ensures { Loaded (at parents.now) (length xs.now) m (number_of column) (λ c. pos (at xs.now c)) s.old
        s.new }
{
    fill(s, column, xs, m);
    gather(parents, xs.len(), m, column, s);
}

// The same of the targets, which may be below 0.
pub fn load_targets(parents: &[u32], xs: &[i32], m: usize, s: &mut [i64])
    requires m_in_bounds { m ≤ length parents.now }
    requires valid { Valid (at parents.now) (length xs.now) m }
    requires m_in_bounds_2 { width * m ≤ length s.old }
    requires xs_len_bound { length xs.now ≤ 512 }
    ensures { Loaded (at parents.now) (length xs.now) m MASS (at_ℤ xs.now) s.old s.new }
{
    fill_targets(s, xs, m);
    gather(parents, xs.len(), m, Column::Mass, s);
}

// The cells' masses, out of their column.
pub fn take_out(s: &[i64], masses: &mut [u32])
    requires masses_in_bounds { width * length masses.old ≤ length s.now }
    requires by_index { (c : ℕ) → c < length masses.old → num MASS s.now c < 2 ^ 32 }
    ensures { masses.new ≡ list_to (length masses.old) (λ c. num MASS s.now c) }
{
    for (u, mass) in masses.iter_mut().enumerate() {
        *mass = get_above(s, Column::Mass, u) as u32;
    }
}

// Sets the first k numbers to 0.
pub fn clear(s: &mut [i64], k: usize)
    requires { k ≤ length s.old }
    ensures { s.new ≡ cleared k s.old }
{
    s[..k].fill(0);
}

// How far a mass is from its target.
fn off(mass: u32, target: i32) -> u64
    ensures { (result ≡ nat_abs (pos mass -ℤ target)) × (result < 2 ^ 33) }
{
    minus(mass, target).unsigned_abs()
}

// The sum of that over all cells.
pub fn change(masses: &[u32], targets: &[i32]) -> u64
    requires { (length masses.now ≡ length targets.now) × (length masses.now ≤ 512) }
    ensures { result ≡ sum_to ℕ_adds (length masses.now) (λ c. nat_abs (pos (at masses.now c) -ℤ at_ℤ targets.now c)) }
{
    let mut sum: u64 = 0;
    for (c, mass) in masses.iter().enumerate() {
        sum += off(*mass, targets[c]);
    }
    sum
}
