// The checks of Open and Step in 01's order, with a check `own` put in, of the operation that calls them; `Ok` if there is none.
ghost use Rattle.std.specs.Prelude.{◌≡◌, [], ◌∷◌, pos, ◌+ℤ◌, length};
ghost use Rattle.numbers.specs.Signed.{over};
ghost use Rattle.numbers.specs.Checks.{first, answered, check_total};
ghost use Rattle.qlt_spec.specs.Field.{lists_of};
ghost use Rattle.qlt_spec.specs.Checks.{shape_of, check_values, check_reach};
ghost use Rattle.book_spec.specs.StartBook.{check_buffer};
ghost use Rattle.book_spec.specs.LentBook.{lent_checks};
ghost use Rattle.kept_spec.specs.Open.{open_verdict_with};
ghost use Rattle.kept_spec.specs.Step.{check_same_scale, check_kept};

use crate::totals::{check_kept, check_same_scale, new_total};
use book::lent::check_lent;
use field_checks::shape::check_shape;
use field_checks::total::check_reach;
use field_checks::values::check_values;
use kept_spec::Balance;
use numbers::Refusal;
use numbers::checks::{check_count, check_long, check_scale, check_total};
use numbers::lists::sum_of;
use qlt_spec::FieldLists;

// Open's checks: 1; 9; the one put in; 13.
#[tactic(auto, unfolding(kept_spec::specs::Open::open_verdict_with), using(numbers::proofs::CheckLaws::last))]
pub fn open_verdict(own: Result<(), Refusal>, kept: &[u32], scale: u32) -> Result<(), Refusal>
    ensures { result ≡ open_verdict_with (own ∷ []) kept.now scale }
{
    check_count(kept.len())?;
    check_scale(scale)?;
    own?;
    check_total(sum_of(kept) as i64)
}

// Step's checks: 1 to 3, the kept list and then the book's buffer counted under 3; 17; 4 to 7; 12; 13; the one put in; 8; those of the book. Gives the
// new total. The contract's list is `step_checks_with` of kept_spec, with `own` put in.
pub fn step_verdict(
    own: Result<(), Refusal>,
    balance: Balance,
    kept: &[u32],
    source: i32,
    scale: u32,
    field: &FieldLists,
    scratch: &[i64],
    book: &[u8],
    told: usize,
) -> Result<u32, Refusal>
    ensures { result ≡ answered
        (first
        (shape_of (length kept.now) (lists_of field.now) (length scratch.now)
        ∷ check_buffer (length book.now)
        ∷ check_same_scale scale balance.scale
        ∷ check_values (lists_of field.now)
        ∷ check_kept kept.now balance.total
        ∷ check_total (pos balance.total +ℤ source)
        ∷ own
        ∷ check_reach field.now.safe_lows.now field.now.safe_highs.now (over (pos balance.total +ℤ source))
        ∷ lent_checks book.now told balance.total))
        (over (pos balance.total +ℤ source)) }
{
    check_shape(field, kept.len(), scratch.len())?;
    check_long(book.len(), 32768)?;
    check_same_scale(scale, balance.scale)?;
    check_values(field)?;
    check_kept(kept, balance.total)?;
    let total = new_total(balance.total, source)?;
    own?;
    check_reach(field.safe_lows, field.safe_highs, total)?;
    check_lent(book, told, balance.total)?;
    Ok(total)
}
