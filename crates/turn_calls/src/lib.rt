// The calls from C for turns of a family, which stands in a lent list of numbers; `legzhuro_c` exports them, and returns their verdicts as numbers.
// Public: `register`, `next`, `waiting`, `turn`. What holds of every history of the calls on a family, those of `family_calls` too, is proved here,
// from `family_spec`. Relies on `turns`, `family_calls`, `call_values`, `family_spec`, `kept_spec`, `qlt_spec` and `numbers`.
#![tactic(auto)]

ghost use Rattle.std.specs.Prelude.{◌≡◌};
ghost use Rattle.qlt_spec.specs.Field.{lists_of};
ghost use Rattle.call_values.specs.Values.{returned};
ghost use Rattle.family_spec.specs.Member.{step_inputs};
ghost use Rattle.family_calls.specs.Calls.{call_room};
ghost use Rattle.turn_calls.specs.TurnCalls.{register_call_verdict, FamilyRegisterReturns, FamilyNextReturns, FamilyWaitingReturns, turn_values, FamilyTurnReturns};

use family_calls::list::{FAMILY_ENTRIES, put_family, read_family};
use family_calls::verdict::call_room;
use numbers::Refusal;
use numbers::checks::check_long;
use qlt_spec::FieldLists;
use turns::{next_member, waiting_count};

mod put;

// The values that a turn gives; `turn_values` in specs/.
const TURN_VALUES: usize = 7;

// Registers a member as waiting.
pub fn register(family: &mut [u64], member: u32) -> Result<(), Refusal>
    ensures { (result ≡ register_call_verdict family.old member) × FamilyRegisterReturns family.old member (returned result) family.new }
{
    check_long(family.len(), FAMILY_ENTRIES)?;
    let registered = turns::register(read_family(family), member);
    registered.answer?;
    put_family(registered.family, family);
    Ok(())
}

// Reads the next in turn: answer[0] is the member, or 8 for nobody.
pub fn next(family: &[u64], answer: &mut [u64]) -> Result<(), Refusal>
    ensures { (result ≡ call_room family.now answer.old 1) × FamilyNextReturns family.now answer.old (returned result) answer.new }
{
    call_room(family.len(), answer.len(), 1)?;
    let next = next_member(read_family(family));
    put::put_value(put::next_word(next), answer);
    Ok(())
}

// Reads how many members wait: answer[0] is their number.
pub fn waiting(family: &[u64], answer: &mut [u64]) -> Result<(), Refusal>
    ensures { (result ≡ call_room family.now answer.old 1) × FamilyWaitingReturns family.now answer.old (returned result) answer.new }
{
    call_room(family.len(), answer.len(), 1)?;
    let count = waiting_count(read_family(family));
    put::put_value(u64::from(count), answer);
    Ok(())
}

// Serves the next in turn: answer[0] is the member, or 8 for idle, answer[1] what its step returned, answer[2] the outcome, answer[3] the new
// total, answer[4] the change, answer[5] what was shared out, answer[6] the book's new length.
pub fn turn(
    family: &mut [u64],
    kept: &mut [u32],
    source: i32,
    scale: u32,
    field: &FieldLists,
    scratch: &mut [i64],
    book: &mut [u8],
    told: usize,
    answer: &mut [u64],
) -> Result<(), Refusal>
    ensures { (result ≡ call_room family.old answer.old turn_values) × FamilyTurnReturns family.old
        (step_inputs kept.old source scale (lists_of field.now) scratch.old book.old told)
        answer.old (returned result) family.new kept.new scratch.new book.new answer.new }
{
    call_room(family.len(), answer.len(), TURN_VALUES)?;
    let turned = turns::turn(
        read_family(family),
        kept,
        source,
        scale,
        field,
        scratch,
        book,
        told,
    );
    match turned.answer {
        None => put::put_idle(answer),
        Some(served) => {
            put_family(turned.family, family);
            put::put_served(served, answer);
        }
    }
    Ok(())
}
