// The operations of a family of kept fields under one cap (02). Public: `start_family`, `open_member`, `step_member`; for the crates above
// `verdict` (the checks) and `members`. What holds of every history of these calls is proved in `family_spec`. Relies on `kept`, `kept_checks`,
// `family_spec`, `kept_spec`, `qlt_spec` and `numbers`.
#![tactic(auto)]

ghost use Rattle.qlt_spec.specs.Field.{lists_of};
ghost use Rattle.family_spec.specs.Member.{step_inputs};
ghost use Rattle.family_spec.specs.Operations.{StartContract, OpenMemberContract, StepMemberContract};

use family_spec::{Family, FamilyAnswer};
use kept_spec::{Balance, Stepped};
use members::with_total;
use numbers::Refusal;
use qlt_spec::FieldLists;

pub mod members;
pub mod verdict;
mod work;

// Starts a family: the cap on the sum of the totals, the scale, and the number of cells. Nobody is open.
pub fn start_family(cap: u64, scale: u32, cells: u32) -> FamilyAnswer<Result<(), Refusal>>
    ensures { StartContract cap scale cells result }
{
    match verdict::start_verdict(scale, cells) {
        Ok(()) => FamilyAnswer {
            family: members::begin(cap, scale, cells),
            answer: Ok(()),
        },
        Err(refusal) => FamilyAnswer {
            family: members::begin(0, 0, 0),
            answer: Err(refusal),
        },
    }
}

// Opens a member with its kept masses, at the family's scale. A refused call gives the family back as it came.
pub fn open_member(
    family: Family,
    member: u32,
    kept: &[u32],
    scale: u32,
) -> FamilyAnswer<Result<Balance, Refusal>>
    ensures { OpenMemberContract family member kept.now scale result }
{
    match work::opened(family, member, kept, scale) {
        Ok(balance) => FamilyAnswer {
            family: with_total(family, member, balance.total),
            answer: Ok(balance),
        },
        Err(refusal) => FamilyAnswer {
            family,
            answer: Err(refusal),
        },
    }
}

// Steps a member's kept field, from the total that the family holds. A refused call gives the family back as it came and writes no list.
pub fn step_member(
    family: Family,
    member: u32,
    kept: &mut [u32],
    source: i32,
    scale: u32,
    field: &FieldLists,
    scratch: &mut [i64],
    book: &mut [u8],
    told: usize,
) -> FamilyAnswer<Result<Stepped, Refusal>>
    ensures { StepMemberContract family member
        (step_inputs kept.old source scale (lists_of field.now) scratch.old book.old told)
        result kept.new scratch.new book.new }
{
    match work::stepped(
        family, member, kept, source, scale, field, scratch, book, told,
    ) {
        Ok(stepped) => FamilyAnswer {
            family: with_total(family, member, stepped.balance.total),
            answer: Ok(stepped),
        },
        Err(refusal) => FamilyAnswer {
            family,
            answer: Err(refusal),
        },
    }
}
