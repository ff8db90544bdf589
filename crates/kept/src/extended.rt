// Step with a check put in, of the operation that calls it: for this crate and the crates above.
ghost use Rattle.std.specs.Prelude.{[], ◌∷◌};
ghost use Rattle.qlt_spec.specs.Field.{lists_of};
ghost use Rattle.kept_spec.specs.Step.{step_call, step_verdict_with, StepBy};

use book::lent::add_record;
use kept_checks::verdict::step_verdict;
use kept_spec::{Balance, Stepped};
use numbers::Refusal;
use qlt_spec::FieldLists;
use reconstruct::repair::repaired;

// Step, with the check `own` before 8. The masses of the field for the new total replace the kept ones.
pub fn step_with(
    own: Result<(), Refusal>,
    balance: Balance,
    kept: &mut [u32],
    source: i32,
    scale: u32,
    field: &FieldLists,
    scratch: &mut [i64],
    book: &mut [u8],
    told: usize,
) -> Result<Stepped, Refusal>
    ensures { StepBy
        (step_verdict_with (own ∷ []) (step_call balance kept.old source scale (lists_of field.now) scratch.old book.old told))
        (step_call balance kept.old source scale (lists_of field.now) scratch.old book.old told)
        result kept.new scratch.new book.new }
{
    let total = step_verdict(
        own, balance, kept, source, scale, field, scratch, book, told,
    )?;
    let repair = repaired(field, total, kept, scratch);
    let length = add_record(book, told, source, repair.outcome, total);
    Ok(Stepped {
        repair,
        balance: Balance {
            total,
            scale: balance.scale,
        },
        length,
    })
}
