// The value that a call returns, and values put into lent lists.
ghost use Rattle.std.specs.Prelude.{◌≡◌, [], ◌∷◌, ◌≤◌, length};
ghost use Rattle.numbers.specs.Lists.{written};
ghost use Rattle.numbers.specs.Checks.{first, check_count, check_long};
ghost use Rattle.qlt_spec.specs.Checks.{check_nodes};
ghost use Rattle.call_values.specs.Values.{returned, open_values, balance_words, step_values, result_words};

use field_checks::shape::check_nodes;
use kept_spec::Balance;
use numbers::Refusal;
use numbers::checks::{check_count, check_long};
use qlt_spec::Repair;

// The values that an opening and a step tell; `open_values` and `step_values` in specs/.
pub const OPEN_VALUES: usize = 2;

const STEP_VALUES: usize = 5;

// 0, or the refusal's number in the low 32 bits and its place in the high 32.
pub fn returned(verdict: Result<(), Refusal>) -> u64
    ensures { result ≡ returned verdict }
{
    match verdict {
        Ok(()) => 0,
        Err(refusal) => u64::from(refusal.number) + u64::from(refusal.place) * 4294967296,
    }
}

// A step's 1 and 2, and under 3 the list for its values.
pub fn step_shape(cells: usize, nodes: usize, answer: usize) -> Result<(), Refusal>
    ensures { result ≡ first (check_count cells ∷ check_nodes cells nodes ∷ check_long answer step_values ∷ []) }
{
    check_count(cells)?;
    check_nodes(cells, nodes)?;
    check_long(answer, STEP_VALUES)
}

// The values of an accepted call, put into a lent list.
pub fn put_balance(balance: Balance, answer: &mut [u64])
    requires { open_values ≤ length answer.old }
    ensures { answer.new ≡ written answer.old 0 (balance_words balance) }
{
    answer[0] = u64::from(balance.total);
    answer[1] = u64::from(balance.scale);
}

pub fn put_result(repair: Repair, book: usize, answer: &mut [u64])
    requires { step_values ≤ length answer.old }
    ensures { answer.new ≡ written answer.old 0 (result_words repair book) }
{
    answer[0] = u64::from(repair.outcome);
    answer[1] = u64::from(repair.total);
    answer[2] = repair.change;
    answer[3] = repair.shared;
    answer[4] = book as u64;
}
