// The operations Open and Step on a kept field. Public: `open`, `step`; for the crates above `extended` (Step with a check put in). The checks are
// in `kept_checks`. What holds of every run of these calls is proved in `kept_spec` (demand 3). Relies on `kept_checks`, `reconstruct`, `book`, `kept_spec`, `book_spec`,
// `qlt_spec` and `numbers`.
#![tactic(auto)]

ghost use Rattle.kept_spec.specs.Open.{OpenContract};
ghost use Rattle.kept_spec.specs.Step.{step_call, StepContract};
ghost use Rattle.qlt_spec.specs.Field.{lists_of};

use crate::extended::step_with;
use kept_checks::verdict::open_verdict;
use kept_spec::{Balance, Stepped};
use numbers::Refusal;
use numbers::lists::sum_of;
use qlt_spec::FieldLists;

pub mod extended;

// Adds up n kept masses and returns their balance at the scale given.
pub fn open(kept: &[u32], scale: u32) -> Result<Balance, Refusal>
    ensures { OpenContract kept.now scale result }
{
    open_verdict(Ok(()), kept, scale)?;
    Ok(Balance {
        total: sum_of(kept) as u32,
        scale,
    })
}

// Steps a kept field: M is the balance's total plus the source; the masses of the new field for M replace the kept ones, and the new balance
// is M at the same scale, which the step must name. The book at the front of its buffer, told by its length, gains a record, and its new length
// is given. A refused call writes nothing.
pub fn step(
    balance: Balance,
    kept: &mut [u32],
    source: i32,
    scale: u32,
    field: &FieldLists,
    scratch: &mut [i64],
    book: &mut [u8],
    told: usize,
) -> Result<Stepped, Refusal>
    ensures { StepContract (step_call balance kept.old source scale (lists_of field.now) scratch.old book.old told)
        result kept.new scratch.new book.new }
{
    step_with(
        Ok(()),
        balance,
        kept,
        source,
        scale,
        field,
        scratch,
        book,
        told,
    )
}
