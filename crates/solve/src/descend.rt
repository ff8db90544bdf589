// From the root down: the chains of each node's children, then the splits along them, in falling number.
ghost use Rattle.std.specs.Prelude.{◌≡◌, ℕ, ◌+◌, ◌*◌, ◌≤◌, ◌<◌, length};
ghost use Rattle.numbers.specs.Lists.{at};
ghost use Rattle.scratch_spec.specs.Columns.{width, FIRST, num};
ghost use Rattle.qlt_spec.specs.Tree.{Valid};
ghost use Rattle.solve_spec.specs.Descent.{Linked, SameData, Descending, DownTo, ChildWatched};

use crate::whole_tree::Stages;
use scratch_spec::Column;
use walks::columns::{get_above, put};
use walks::group::{split_group, split_watched};

// Chains each node's children in rising number: FIRST is its first child, NEXT a child's next sibling, m is none.
pub fn link(parents: &[u32], m: usize, s: &mut [i64])
    requires valid { Valid (at parents.now) 1 m }
    requires m_in_bounds { m ≤ length parents.now }
    requires m_in_bounds_2 { width * m ≤ length s.old }
    requires by_index { (v : ℕ) → v < m → num FIRST s.old v ≡ m }
    requires m_bound { m ≤ 1024 }
    ensures linked { Linked (at parents.now) m 0 s.new }
    ensures same_data { SameData m s.old s.new }
{
    let root = m - 1;
    for u in (0..root).rev() {
        let parent = parents[u] as usize;
        let first = get_above(s, Column::First, parent);
        put(s, Column::Next, u, first);
        put(s, Column::First, parent, u as u64);
    }
}

// Splits the mass of each inner node from k on among its children: their masses take their targets' place, and the root's is given. Gives
// the sum of the sizes of d.
pub fn descend(parents: &[u32], k: usize, m: usize, s: &mut [i64]) -> u64
    requires k_le_m { (k ≤ m) × (m ≤ length parents.now) }
    requires by_index { (n : ℕ) × ((n ≤ k) × Descending (at parents.now) n m s.old) }
    ensures { DownTo (at parents.now) k m s.old s.new result }
{
    link(parents, m, s);
    let mut shared: u64 = 0;
    for v in (k..m).rev() {
        let d = split_group(s, m, v);
        shared += d.unsigned_abs();
    }
    shared
}

// The same down to the parent of u, a node below the root. Gives what u has after each step of the split of its parent's mass.
pub fn child_stages(parents: &[u32], root: usize, u: usize, s: &mut [i64]) -> Stages
    requires u_lt_root { (u < root) × (root < length parents.now) }
    requires by_index { (n : ℕ) × Descending (at parents.now) n (root + 1) s.old }
    ensures { ChildWatched (at parents.now) (root + 1) u s.old s.new result.clip result.first result.both }
{
    let v = parents[u] as usize;
    descend(parents, v + 1, root + 1, s);
    let watched = split_watched(s, root + 1, v, u);
    Stages {
        clip: watched.clip,
        first: watched.first,
        both: watched.both,
    }
}
