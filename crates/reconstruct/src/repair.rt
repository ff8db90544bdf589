// What an accepted call does, for this crate and for Step: the masses by the bounds in force of its outcome. Relies on `solve` and `field_checks`.
ghost use Rattle.std.specs.Prelude.{◌≡◌, Ok};
ghost use Rattle.qlt_spec.specs.Field.{lists_of};
ghost use Rattle.qlt_spec.specs.Operation.{reconstruct_call, ReconstructFits, RepairContract};
ghost use Rattle.reconstruct.specs.Rebuild.{ForcedBy};

use field_checks::total::outcome_of;
use qlt_spec::{FieldLists, Outcome, Repair};
use solve::whole_tree::{InForce, solve};

// The field by the bounds in force: low to high, safe low to low, or high to safe high.
pub fn in_force<'a>(field: &FieldLists<'a>, outcome: Outcome, total: u32) -> InForce<'a>
    ensures { ForcedBy outcome (lists_of field.now) total result }
{
    let (lows, highs) = match outcome {
        Outcome::Attainable => (field.lows, field.highs),
        Outcome::Below => (field.safe_lows, field.lows),
        Outcome::Above => (field.highs, field.safe_highs),
    };
    InForce {
        parents: field.parents,
        targets: field.targets,
        lows,
        highs,
        weights: field.weights,
        mass: u64::from(total),
    }
}

// The masses of a call that fits, and all that is told of it.
pub fn repaired(field: &FieldLists, total: u32, masses: &mut [u32], scratch: &mut [i64]) -> Repair
    requires { ReconstructFits (reconstruct_call (lists_of field.now) total masses.old scratch.old) }
    ensures { RepairContract (Ok tt) (reconstruct_call (lists_of field.now) total masses.old scratch.old) (Ok result) masses.new scratch.new }
{
    let outcome = outcome_of(field.lows, field.highs, total);
    let moved = solve(&in_force(field, outcome, total), scratch, masses);
    Repair {
        outcome: outcome.number(),
        total,
        change: moved.change,
        shared: moved.shared,
    }
}
