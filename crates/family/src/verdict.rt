// The checks of a family: 19, 1 of another n, 20, and those of a start and of an opening in their order.
ghost use Rattle.std.specs.Prelude.{◌≡◌, ◌<◌, ◌^◌, pos, ◌+ℤ◌};
ghost use Rattle.numbers.specs.Signed.{over};
ghost use Rattle.numbers.specs.Checks.{both};
ghost use Rattle.family_spec.specs.Family.{member_at, total_of, room};
ghost use Rattle.family_spec.specs.Member.{check_closed, check_opened, check_same_cells, check_room, check_source};
ghost use Rattle.family_spec.specs.Operations.{start_verdict, open_member_verdict};

use crate::members::{member_at, others_of};
use family_spec::Family;
use kept_checks::totals::{add_source, check_same_scale};
use kept_checks::verdict::open_verdict;
use numbers::Refusal;
use numbers::arith::above;
use numbers::checks::{check_count, check_scale, unless};
use numbers::lists::sum_of;

// A start's checks: 1; 9.
#[tactic(auto, unfolding(family_spec::specs::Operations::start_verdict))]
pub fn start_verdict(scale: u32, cells: u32) -> Result<(), Refusal>
    ensures { result ≡ start_verdict scale cells }
{
    check_count(cells as usize)?;
    check_scale(scale)
}

// 19: a number above 7, or a member that is open.
#[tactic(auto, unfolding(family_spec::specs::Member::check_closed))]
fn check_closed(family: Family, i: u32) -> Result<(), Refusal>
    ensures { result ≡ check_closed i (member_at family i) }
{
    unless(i <= 7 && !member_at(family, i).opened, 19, 0)
}

// 19: a number above 7, or a member that is not open.
#[tactic(auto, unfolding(family_spec::specs::Member::check_opened))]
pub fn check_opened(family: Family, i: u32) -> Result<(), Refusal>
    ensures { result ≡ check_opened i (member_at family i) }
{
    unless(i <= 7 && member_at(family, i).opened, 19, 0)
}

// 1: another n than the family's.
#[tactic(auto, unfolding(family_spec::specs::Member::check_same_cells))]
fn check_same_cells(n: usize, cells: u32) -> Result<(), Refusal>
    ensures { result ≡ check_same_cells n cells }
{
    unless(n == cells as usize, 1, 0)
}

// 20: a total of member i that would pass the cap, with the others'.
#[tactic(auto, using(family_spec::proofs::FamilyLaws::room_checked))]
fn check_cap(family: Family, i: u32, total: u64) -> Result<(), Refusal>
    requires { total < 2 ^ 34 }
    ensures { result ≡ check_room total (room family i) }
{
    let sum = others_of(family, i) + total;
    unless(sum <= family.cap, 20, 0)
}

// 20: a step with a source above 0 whose new total would pass the cap.
#[tactic(auto, using(family_spec::proofs::FamilyLaws::source_passes, family_spec::proofs::FamilyLaws::source_counts))]
pub fn check_source(family: Family, i: u32, source: i32) -> Result<(), Refusal>
    requires { i < 8 }
    ensures { result ≡ check_source source (over (pos (total_of family i) +ℤ source)) (room family i) }
{
    if source <= 0 {
        return Ok(());
    }
    let next = add_source(member_at(family, i).total, source);
    check_cap(family, i, above(next))
}

// A step's own checks: 19; 1 of another n.
pub fn check_stepping(family: Family, i: u32, n: usize) -> Result<(), Refusal>
    ensures { result ≡ both (check_opened i (member_at family i)) (check_same_cells n family.cells) }
{
    check_opened(family, i)?;
    check_same_cells(n, family.cells)
}

// An opening's checks: 19; 1, of another n too; 9; 17; 13; 20.
#[tactic(auto, using(family_spec::proofs::AnswerLaws::opening_is))]
pub fn opening_verdict(family: Family, i: u32, kept: &[u32], scale: u32) -> Result<(), Refusal>
    ensures { result ≡ open_member_verdict family i kept.now scale }
{
    check_closed(family, i)?;
    check_same_cells(kept.len(), family.cells)?;
    let same_scale = check_same_scale(scale, family.scale);
    open_verdict(same_scale, kept, scale)?;
    check_cap(family, i, sum_of(kept))
}
