// The parts of a cell's correction, from the lists of a field that Reconstruct accepts: the split of its parent's mass is made and watched.
ghost use Rattle.std.specs.Prelude.{◌≡◌, List, ℕ, ◌-◌, ◌^◌, ◌<◌, length};
ghost use Rattle.numbers.specs.Lists.{at};
ghost use Rattle.qlt_spec.specs.Field as fields;
ghost use Rattle.qlt_spec.specs.Field.{lists_of};
ghost use Rattle.qlt_spec.specs.Operation.{reconstruct_call, ReconstructFits};
ghost use Rattle.solve_spec.specs.Solve.{node_group, mass_of, Solvable};
ghost use Rattle.query_spec.specs.Parts.{split_parts, cell_parts, parts_by};

use numbers::arith::{difference, minus};
use qlt_spec::{FieldLists, Outcome};
use query_spec::Parts;
use reconstruct::repair::in_force;
use solve::whole_tree::{InForce, node_stages};

// The parts, from what the cell has after each step.
fn parts_by(clip: u64, first: u64, both: u64, target: i32) -> Parts
    requires { (clip < 2 ^ 31) × (first < 2 ^ 31) × (both < 2 ^ 31) }
    ensures { result ≡ parts_by clip first both target }
{
    let clipping = minus(clip as u32, target);
    let first_share = difference(first, clip);
    let second_share = difference(both, first);
    Parts {
        clipping,
        first: first_share,
        second: second_share,
    }
}

// The parts of a cell that is not the root, by the bounds in force.
fn parts_between(in_force: &InForce, cell: usize, s: &mut [i64]) -> Parts
    requires solvable { Solvable in_force.now.parents.now in_force.now.targets.now in_force.now.lows.now in_force.now.highs.now
        in_force.now.weights.now in_force.now.mass s.old }
    requires cell_in_bounds { (cell < length in_force.now.parents.now - 1) × (cell < length in_force.now.targets.now) }
    ensures { result ≡ split_parts
        (node_group in_force.now.parents.now in_force.now.targets.now in_force.now.lows.now in_force.now.highs.now in_force.now.weights.now
        (at in_force.now.parents.now cell))
        (mass_of in_force.now.parents.now in_force.now.targets.now in_force.now.lows.now in_force.now.highs.now in_force.now.weights.now
        in_force.now.mass (at in_force.now.parents.now cell))
        cell }
{
    let found = node_stages(in_force, cell, s);
    parts_by(found.clip, found.first, found.both, in_force.targets[cell])
}

// The parts of a cell of a field with that outcome.
pub fn cell_parts(
    outcome: Outcome,
    field: &FieldLists,
    total: u32,
    cell: usize,
    scratch: &mut [i64],
) -> Parts
    requires by_index { (masses : List ℕ) × ReconstructFits (reconstruct_call (lists_of field.now) total masses scratch.old) }
    requires outcome_value { outcome ≡ fields.outcome (fields.field (lists_of field.now)) total }
    requires cell_in_bounds { cell < length field.now.targets.now }
    ensures { result ≡ cell_parts (fields.field (lists_of field.now)) total cell }
{
    if field.parents.len() == 1 {
        let correction = minus(total, field.targets[cell]);
        return Parts {
            clipping: 0,
            first: 0,
            second: correction,
        };
    }
    parts_between(&in_force(field, outcome, total), cell, scratch)
}
