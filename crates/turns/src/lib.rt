// Turns for the members of a family (02): who waits, who is next, and a turn, which steps the next one. Public: `register`, `next_member`,
// `waiting_count`, `turn`. What holds of every history of these calls is proved in `family_spec`. Relies on `family`, `family_spec`, `kept_spec`,
// `qlt_spec` and `numbers`.
#![tactic(auto)]

ghost use Rattle.std.specs.Prelude.{◌≡◌};
ghost use Rattle.qlt_spec.specs.Field.{lists_of};
ghost use Rattle.family_spec.specs.Member.{step_inputs};
ghost use Rattle.family_spec.specs.Operations.{RegisterContract, next_member, waiting_count, TurnContract};

use family::step_member;
use family::verdict::check_opened;
use family_spec::{Family, FamilyAnswer, Served};
use numbers::Refusal;
use qlt_spec::FieldLists;

mod waiting;

// Registers a member as waiting; twice counts once. A refused call gives the family back as it came.
pub fn register(family: Family, member: u32) -> FamilyAnswer<Result<(), Refusal>>
    ensures { RegisterContract family member result }
{
    match check_opened(family, member) {
        Ok(()) => FamilyAnswer {
            family: waiting::registered(family, member),
            answer: Ok(()),
        },
        Err(refusal) => FamilyAnswer {
            family,
            answer: Err(refusal),
        },
    }
}

// The next in turn: the first that waits after the last one served, going round.
#[tactic(auto, unfolding(family_spec::specs::Operations::next_member))]
pub fn next_member(family: Family) -> Option<u32>
    ensures { result ≡ next_member family }
{
    waiting::first_waiting(family.waiting, family.from)
}

// The number of members that wait.
pub fn waiting_count(family: Family) -> u32
    ensures { result ≡ waiting_count family }
{
    family.waiting.count_ones()
}

// Serves the next in turn: its step is called with what was lent, accepted or not, and its waiting ends. With nobody waiting the turn is idle:
// it gives the family back as it came and writes no list.
pub fn turn(
    family: Family,
    kept: &mut [u32],
    source: i32,
    scale: u32,
    field: &FieldLists,
    scratch: &mut [i64],
    book: &mut [u8],
    told: usize,
) -> FamilyAnswer<Option<Served>>
    ensures { TurnContract family
        (step_inputs kept.old source scale (lists_of field.now) scratch.old book.old told)
        result kept.new scratch.new book.new }
{
    match next_member(family) {
        Some(member) => {
            let step = step_member(
                family, member, kept, source, scale, field, scratch, book, told,
            );
            FamilyAnswer {
                family: waiting::served(step.family, member),
                answer: Some(Served {
                    member,
                    stepped: step.answer,
                }),
            }
        }
        None => FamilyAnswer {
            family,
            answer: None,
        },
    }
}
