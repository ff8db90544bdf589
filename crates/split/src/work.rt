// The split of a call's items in a lent scratch: the columns from the lists, one chain through all items, the walks, and the masses out.
ghost use Rattle.std.specs.Prelude.{◌≡◌, true, ℕ, ◌+◌, ◌*◌, ◌≤◌, ◌<◌, pos, length};
ghost use Rattle.numbers.specs.Lists.{at_ℤ, list_to};
ghost use Rattle.caas_spec.specs.Operation.{split_call, split_masses, split_deficit, SplitFits};
ghost use Rattle.split.specs.Items.{AllStorable, ItemsLoaded};
ghost use Rattle.scratch_spec.specs.Columns.{number_of, width, MASS, NEXT, Storable, num, Laid};

use numbers::arith::{above, signed};
use scratch_spec::Column;
use walks::columns::{get_above, put, put_signed};
use walks::group::split_group;

// A column of the first rows, from a list.
fn fill(s: &mut [i64], column: Column, xs: &[i64])
    requires { (width * length xs.now ≤ length s.old) × ((u : ℕ) → u < length xs.now → Storable (number_of column) (at_ℤ xs.now u)) }
    ensures { Laid (number_of column) (length xs.now) (λ u. true) (at_ℤ xs.now) (length xs.now) s.old s.new }
{
    for (u, x) in xs.iter().enumerate() {
        put_signed(s, column, u, *x);
    }
}

// A chain through the first n rows, which leads from each to the next.
fn link(s: &mut [i64], n: usize)
    requires { (n ≤ 512) × (width * n ≤ length s.old) }
    ensures { Laid NEXT n (λ u. true) (λ u. pos (u + 1)) n s.old s.new }
{
    for u in 0..n {
        put(s, Column::Next, u, u as u64 + 1);
    }
}

// The masses of the first rows.
fn copy_masses(s: &[i64], masses: &mut [i64])
    requires { width * length masses.old ≤ length s.now }
    ensures { masses.new ≡ list_to (length masses.old) (λ u. pos (num MASS s.now u)) }
{
    for (u, mass) in masses.iter_mut().enumerate() {
        *mass = signed(get_above(s, Column::Mass, u));
    }
}

// The items of a call, and its total, in the scratch.
fn load(targets: &[i64], lows: &[i64], highs: &[i64], weights: &[i64], total: i64, s: &mut [i64])
    requires targets_len_bound { (length targets.now ≤ 512) × (length lows.now ≡ length targets.now) × (length highs.now ≡ length targets.now) ×
        (length weights.now ≡ length targets.now) }
    requires width_in_bounds { width * length targets.now + width ≤ length s.old }
    requires all_storable { AllStorable lows.now × AllStorable highs.now × AllStorable weights.now }
    ensures { ItemsLoaded targets.now lows.now highs.now weights.now total s.new }
{
    fill(s, Column::Mass, targets);
    fill(s, Column::Low, lows);
    fill(s, Column::High, highs);
    fill(s, Column::Weight, weights);
    link(s, targets.len());
    put(s, Column::First, targets.len(), 0);
    put(s, Column::Mass, targets.len(), above(total));
}

// The masses of a call that has passed its checks; gives 01's d.
pub fn split_items(
    targets: &[i64],
    lows: &[i64],
    highs: &[i64],
    weights: &[i64],
    total: i64,
    masses: &mut [i64],
    s: &mut [i64],
) -> i64
    requires split_fits { SplitFits (split_call targets.now lows.now highs.now weights.now total masses.old) }
    requires width_in_bounds { width * length targets.now + width ≤ length s.old }
    ensures masses_after { masses.new ≡ split_masses
        (split_call targets.now lows.now highs.now weights.now total masses.old) }
    ensures value { result ≡ split_deficit
        (split_call targets.now lows.now highs.now weights.now total masses.old) }
{
    let n = targets.len();
    load(targets, lows, highs, weights, total, s);
    let deficit = split_group(s, n, n);
    copy_masses(s, masses);
    deficit
}
