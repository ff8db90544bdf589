// The masses of a whole tree by the bounds in force: the columns from the lists, the splits from the root down, the masses out of their
// column, and the scratch cleared; or in their place what one node has after each step of its parent's split. Relies on `load` and `descend`.
ghost use Rattle.std.specs.Prelude.{◌≡◌, ◌-◌, ◌<◌, length};
ghost use Rattle.solve_spec.specs.Solve.{Solvable, Prepared, Solved, NodeWatched};

use crate::descend::{child_stages, descend};
use crate::load::{change, clear, fill_with, load, load_targets, take_out};
use scratch_spec::{Column, WIDTH};
use walks::columns::put;

// A tree and what is in force: each node's parent, each cell's target, low, high and weight, and the root's mass.
#[derive(Clone, Copy)]
pub struct InForce<'a> {
    pub parents: &'a [u32],
    pub targets: &'a [i32],
    pub lows: &'a [u32],
    pub highs: &'a [u32],
    pub weights: &'a [u32],
    pub mass: u64,
}

// The columns of all nodes before the splits: sums over their cells, no first child yet, and the root's mass.
fn prepare(in_force: &InForce, s: &mut [i64])
    requires { Solvable in_force.now.parents.now in_force.now.targets.now in_force.now.lows.now in_force.now.highs.now
        in_force.now.weights.now in_force.now.mass s.old }
    ensures { Prepared in_force.now.parents.now in_force.now.targets.now in_force.now.lows.now in_force.now.highs.now
        in_force.now.weights.now in_force.now.mass
        s.old s.new }
{
    let parents = in_force.parents;
    let m = parents.len();
    load_targets(parents, in_force.targets, m, s);
    load(parents, in_force.lows, m, Column::Low, s);
    load(parents, in_force.highs, m, Column::High, s);
    load(parents, in_force.weights, m, Column::Weight, s);
    fill_with(s, Column::First, m as u64, m);
    put(s, Column::Mass, m - 1, in_force.mass);
}

// The change that masses make, and how much the splits share out.
#[derive(Clone, Copy)]
pub struct Moved {
    pub change: u64,
    pub shared: u64,
}

// The cells' masses, where the root has its mass and each node's low and high are the sums of its cells'; gives the change that they make and
// how much was shared out. The scratch's first rows, one for each node, are 0 afterwards.
pub fn solve(in_force: &InForce, s: &mut [i64], masses: &mut [u32]) -> Moved
    requires solvable { Solvable in_force.now.parents.now in_force.now.targets.now in_force.now.lows.now in_force.now.highs.now
        in_force.now.weights.now in_force.now.mass s.old }
    requires masses_len { length masses.old ≡ length in_force.now.targets.now }
    ensures { Solved in_force.now.parents.now in_force.now.targets.now in_force.now.lows.now in_force.now.highs.now
        in_force.now.weights.now in_force.now.mass
        s.old s.new masses.new result.change result.shared }
{
    prepare(in_force, s);
    let parents = in_force.parents;
    let shared = descend(parents, in_force.targets.len(), parents.len(), s);
    take_out(s, masses);
    clear(s, WIDTH * parents.len());
    let change = change(masses, in_force.targets);
    Moved { change, shared }
}

// What a node has after each step of a split: clipped, moved by its first share, and by both.
#[derive(Clone, Copy)]
pub struct Stages {
    pub clip: u64,
    pub first: u64,
    pub both: u64,
}

// What one node below the root has after each step of the split of its parent's mass. The scratch's first rows are 0 afterwards.
pub fn node_stages(in_force: &InForce, u: usize, s: &mut [i64]) -> Stages
    requires solvable { Solvable in_force.now.parents.now in_force.now.targets.now in_force.now.lows.now in_force.now.highs.now
        in_force.now.weights.now in_force.now.mass s.old }
    requires u_in_bounds { u < length in_force.now.parents.now - 1 }
    ensures { NodeWatched in_force.now.parents.now in_force.now.targets.now in_force.now.lows.now in_force.now.highs.now
        in_force.now.weights.now in_force.now.mass u
        s.old s.new result.clip result.first result.both }
{
    prepare(in_force, s);
    let m = in_force.parents.len();
    let stages = child_stages(in_force.parents, m - 1, u, s);
    clear(s, WIDTH * m);
    stages
}
