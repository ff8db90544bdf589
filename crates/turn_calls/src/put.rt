// The values that the calls for turns put into a lent list.
ghost use Rattle.std.specs.Prelude.{◌≡◌, Some, None, [], ◌∷◌, ◌≤◌, length};
ghost use Rattle.numbers.specs.Lists.{written};
ghost use Rattle.call_values.specs.Values.{result_words};
ghost use Rattle.turn_calls.specs.TurnCalls.{next_word, turn_values, turn_words};

use call_values::values::returned;
use family_spec::Served;
use qlt_spec::Repair;

// The member, or 8 for nobody.
pub fn next_word(next: Option<u32>) -> u64
    ensures { result ≡ next_word next }
{
    match next {
        Some(member) => u64::from(member),
        None => 8,
    }
}

pub fn put_value(value: u64, answer: &mut [u64])
    requires { 1 ≤ length answer.old }
    ensures { answer.new ≡ written answer.old 0 (value ∷ []) }
{
    answer[0] = value;
}

// A member, what its step returned, the step's values, and the book's new length.
fn put_turn(member: u32, returned: u64, repair: Repair, book: usize, answer: &mut [u64])
    requires { turn_values ≤ length answer.old }
    ensures { answer.new ≡ written answer.old 0 (member ∷ returned ∷ result_words repair book) }
{
    answer[0] = u64::from(member);
    answer[1] = returned;
    answer[2] = u64::from(repair.outcome);
    answer[3] = u64::from(repair.total);
    answer[4] = repair.change;
    answer[5] = repair.shared;
    answer[6] = book as u64;
}

// No values.
fn nothing() -> Repair
    ensures { result ≡ record { outcome = 0; total = 0; change = 0; shared = 0 } }
{
    Repair {
        outcome: 0,
        total: 0,
        change: 0,
        shared: 0,
    }
}

pub fn put_idle(answer: &mut [u64])
    requires { turn_values ≤ length answer.old }
    ensures { answer.new ≡ written answer.old 0 (turn_words None) }
{
    put_turn(8, 0, nothing(), 0, answer);
}

pub fn put_served(served: Served, answer: &mut [u64])
    requires { turn_values ≤ length answer.old }
    ensures { answer.new ≡ written answer.old 0 (turn_words (Some served)) }
{
    match served.stepped {
        Ok(stepped) => put_turn(served.member, 0, stepped.repair, stepped.length, answer),
        Err(refusal) => put_turn(served.member, returned(Err(refusal)), nothing(), 0, answer),
    }
}
