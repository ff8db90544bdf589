// All of Reconstruct's checks. Relies on `field_checks`.
ghost use Rattle.std.specs.Prelude.{◌≡◌};
ghost use Rattle.qlt_spec.specs.Field.{lists_of};
ghost use Rattle.qlt_spec.specs.Operation.{reconstruct_call, reconstruct_verdict};

use field_checks::shape::check_shape;
use field_checks::total::check_reach;
use field_checks::values::check_values;
use numbers::Refusal;
use qlt_spec::FieldLists;

// 1 to 3; 4 to 7; 8.
#[tactic(auto, unfolding(qlt_spec::specs::Operation::reconstruct_verdict), using(numbers::proofs::CheckLaws::last))]
pub fn verdict(
    field: &FieldLists,
    total: u32,
    masses: &[u32],
    scratch: &[i64],
) -> Result<(), Refusal>
    ensures { result ≡ reconstruct_verdict (reconstruct_call (lists_of field.now) total masses.now scratch.now) }
{
    check_shape(field, masses.len(), scratch.len())?;
    check_values(field)?;
    check_reach(field.safe_lows, field.safe_highs, total)
}
