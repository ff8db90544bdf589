// The operation Reconstruct: the masses of a whole field for a total. Public: `reconstruct`; for Step `repair::repaired`, what an accepted call does;
// for Query `verdict::verdict`, its checks, and `repair::in_force`. Relies on `solve`, `field_checks`, `solve_spec`, `qlt_spec` and `numbers`.
#![tactic(auto)]

ghost use Rattle.qlt_spec.specs.Field.{lists_of};
ghost use Rattle.qlt_spec.specs.Operation.{reconstruct_call, ReconstructContract};

use crate::repair::repaired;
use crate::verdict::verdict;
use numbers::Refusal;
use qlt_spec::{FieldLists, Repair};

pub mod repair;
pub mod verdict;

// Rebuilds the masses of the field's cells so that they add up to `total`, and writes them; the scratch's first rows, one for each node,
// are 0 afterwards. A refused call writes nothing.
pub fn reconstruct(
    field: &FieldLists,
    total: u32,
    masses: &mut [u32],
    scratch: &mut [i64],
) -> Result<Repair, Refusal>
    ensures { ReconstructContract (reconstruct_call (lists_of field.now) total masses.old scratch.old) result masses.new scratch.new }
{
    verdict(field, total, masses, scratch)?;
    Ok(repaired(field, total, masses, scratch))
}
