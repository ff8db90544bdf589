// What an opening and a step answer and leave, by the family's verdict.
ghost use Rattle.qlt_spec.specs.Field.{lists_of};
ghost use Rattle.kept_spec.specs.Open.{OpenBy};
ghost use Rattle.kept_spec.specs.Step.{StepBy};
ghost use Rattle.family_spec.specs.Family.{member_at, terms};
ghost use Rattle.family_spec.specs.Member.{step_inputs, call_of};
ghost use Rattle.family_spec.specs.Operations.{open_member_verdict, step_member_verdict};

use crate::members::member_at;
use crate::verdict::{check_source, check_stepping, opening_verdict};
use family_spec::Family;
use kept::extended::step_with;
use kept_spec::{Balance, Stepped};
use numbers::Refusal;
use numbers::lists::sum_of;
use qlt_spec::FieldLists;

// The balance that a member is opened with.
pub fn opened(family: Family, member: u32, kept: &[u32], scale: u32) -> Result<Balance, Refusal>
    ensures { OpenBy (open_member_verdict family member kept.now scale) kept.now scale result }
{
    opening_verdict(family, member, kept, scale)?;
    let total = sum_of(kept) as u32;
    Ok(Balance { total, scale })
}

// The step of the balance that the family holds; a refused one writes no list.
pub fn stepped(
    family: Family,
    member: u32,
    kept: &mut [u32],
    source: i32,
    scale: u32,
    field: &FieldLists,
    scratch: &mut [i64],
    book: &mut [u8],
    told: usize,
) -> Result<Stepped, Refusal>
    ensures { let x = step_inputs kept.old source scale (lists_of field.now) scratch.old book.old told in
        StepBy (step_member_verdict family member x) (call_of (terms family) (member_at family member) x)
        result kept.new scratch.new book.new }
{
    check_stepping(family, member, field.targets.len())?;
    let stands = member_at(family, member);
    let within = check_source(family, member, source);
    let balance = Balance {
        total: stands.total,
        scale: family.scale,
    };
    step_with(
        within, balance, kept, source, scale, field, scratch, book, told,
    )
}
