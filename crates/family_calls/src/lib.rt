// The calls from C on a family, which stands in a lent list of numbers; `legzhuro_c` exports them, and returns their verdicts as numbers, the calls
// for turns are in `turn_calls`. Public: `start`, `open`, `step`; for the crates above `list` and `verdict`. Relies on `family`, `call_values`,
// `family_spec`, `kept_spec`, `qlt_spec` and `numbers`.
#![tactic(auto)]

ghost use Rattle.std.specs.Prelude.{◌≡◌};
ghost use Rattle.qlt_spec.specs.Field.{lists_of};
ghost use Rattle.call_values.specs.Values.{returned};
ghost use Rattle.family_spec.specs.Member.{step_inputs};
ghost use Rattle.family_calls.specs.Calls.{start_call_verdict, FamilyStartReturns, open_call_verdict, FamilyOpenReturns, step_call_verdict, FamilyStepReturns};

use call_values::values::{OPEN_VALUES, put_balance, put_result};
use family::{open_member, start_family, step_member};
use list::{put_family, read_family};
use numbers::Refusal;
use numbers::checks::check_long;
use qlt_spec::FieldLists;
use verdict::{call_room, step_room};

pub mod list;
pub mod verdict;

// Starts a family.
pub fn start(cap: u64, scale: u32, cells: u32, family: &mut [u64]) -> Result<(), Refusal>
    ensures { (result ≡ start_call_verdict scale cells family.old) × FamilyStartReturns cap scale cells family.old (returned result) family.new }
{
    check_long(family.len(), list::FAMILY_ENTRIES)?;
    let started = start_family(cap, scale, cells);
    started.answer?;
    put_family(started.family, family);
    Ok(())
}

// Opens a member: answer[0] is the total, answer[1] the scale.
pub fn open(
    family: &mut [u64],
    member: u32,
    kept: &[u32],
    scale: u32,
    answer: &mut [u64],
) -> Result<(), Refusal>
    ensures { (result ≡ open_call_verdict family.old member kept.now scale answer.old) ×
        FamilyOpenReturns family.old member kept.now scale answer.old (returned result) family.new answer.new }
{
    call_room(family.len(), answer.len(), OPEN_VALUES)?;
    let opened = open_member(read_family(family), member, kept, scale);
    let balance = opened.answer?;
    put_family(opened.family, family);
    put_balance(balance, answer);
    Ok(())
}

// Steps a member: answer[0] is the outcome, answer[1] the new total, answer[2] the change, answer[3] what was shared out, answer[4]
// the book's new length.
pub fn step(
    family: &mut [u64],
    member: u32,
    kept: &mut [u32],
    source: i32,
    scale: u32,
    field: &FieldLists,
    scratch: &mut [i64],
    book: &mut [u8],
    told: usize,
    answer: &mut [u64],
) -> Result<(), Refusal>
    ensures { let x = step_inputs kept.old source scale (lists_of field.now) scratch.old book.old told in
        (result ≡ step_call_verdict family.old member x answer.old) ×
        FamilyStepReturns family.old member x answer.old (returned result) family.new kept.new scratch.new book.new answer.new }
{
    step_room(
        family,
        member,
        field.targets.len(),
        field.parents.len(),
        answer.len(),
    )?;
    let stepped = step_member(
        read_family(family),
        member,
        kept,
        source,
        scale,
        field,
        scratch,
        book,
        told,
    );
    let accepted = stepped.answer?;
    put_family(stepped.family, family);
    put_result(accepted.repair, accepted.length, answer);
    Ok(())
}
