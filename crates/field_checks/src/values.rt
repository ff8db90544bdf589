// 5 to 7, and the chain 4 to 7. No sum can overflow, whatever the lists hold.
ghost use Rattle.std.specs.Prelude.{◌≡◌, ◌≤◌, length};
ghost use Rattle.qlt_spec.specs.Field.{lists_of, cells};
ghost use Rattle.qlt_spec.specs.Checks.{bounds_ordered, check_order, check_sum, check_values};
ghost use Rattle.field_checks.specs.Lists.{Sized};

use crate::tree::check_tree;
use numbers::Refusal;
use numbers::checks::unless;
use numbers::lists::sum_of;
use qlt_spec::FieldLists;

// A cell's bounds do not cross.
#[tactic(auto, unfolding(qlt_spec::specs::Checks::bounds_ordered))]
fn in_order(safe_low: u32, low: u32, high: u32, safe_high: u32) -> bool
    ensures { result ≡ bounds_ordered safe_low low high safe_high }
{
    safe_low <= low && (low <= high && high <= safe_high)
}

// 5: the first cell with crossed bounds.
fn check_order(field: &FieldLists) -> Result<(), Refusal>
    requires { Sized (lists_of field.now) }
    ensures { result ≡ check_order (cells (lists_of field.now)) field.now.lows.now field.now.highs.now field.now.safe_lows.now
        field.now.safe_highs.now }
{
    for c in 0..field.targets.len() {
        if !in_order(
            field.safe_lows[c],
            field.lows[c],
            field.highs[c],
            field.safe_highs[c],
        ) {
            return Err(Refusal::at(5, c));
        }
    }
    Ok(())
}

// 6 and 7: a list that adds up to over 2147483647.
#[tactic(auto, unfolding(qlt_spec::specs::Checks::check_sum))]
fn check_sum(number: u32, xs: &[u32]) -> Result<(), Refusal>
    requires { length xs.now ≤ 1024 }
    ensures { result ≡ check_sum number xs.now }
{
    unless(sum_of(xs) <= 2147483647, number, 0)
}

// 4 to 7: of lists whose lengths are right.
#[tactic(auto, unfolding(qlt_spec::specs::Checks::check_values), using(numbers::proofs::CheckLaws::last))]
pub fn check_values(field: &FieldLists) -> Result<(), Refusal>
    requires { Sized (lists_of field.now) }
    ensures { result ≡ check_values (lists_of field.now) }
{
    check_tree(field.parents, field.targets.len())?;
    check_order(field)?;
    check_sum(6, field.safe_highs)?;
    check_sum(7, field.weights)
}
