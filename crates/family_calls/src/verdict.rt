// The checks that a call makes before its operation.
ghost use Rattle.std.specs.Prelude.{◌≡◌, [], ◌∷◌, length};
ghost use Rattle.numbers.specs.Checks.{first, check_count, check_long};
ghost use Rattle.qlt_spec.specs.Checks.{check_nodes};
ghost use Rattle.call_values.specs.Values.{step_values};
ghost use Rattle.family_spec.specs.Family.{member_at};
ghost use Rattle.family_spec.specs.Member.{check_opened, check_same_cells};
ghost use Rattle.family_calls.specs.List.{family_entries, family_in};

use crate::list::{FAMILY_ENTRIES, read_family};
use call_values::values::step_shape;
use family::verdict::check_stepping;
use numbers::Refusal;
use numbers::checks::check_long;

// Under 3 the list of the family, and the list for the values that a call gives.
pub fn call_room(family: usize, answer: usize, values: usize) -> Result<(), Refusal>
    ensures { result ≡ first (check_long family family_entries ∷ check_long answer values ∷ []) }
{
    check_long(family, FAMILY_ENTRIES)?;
    check_long(answer, values)
}

// Under 3 the list of the family; 19; 1, of another n too; 2; under 3 the list for a step's values.
pub fn step_room(
    family: &[u64],
    member: u32,
    cells: usize,
    nodes: usize,
    answer: usize,
) -> Result<(), Refusal>
    ensures { result ≡ first
        (check_long (length family.now) family_entries
        ∷ check_opened member (member_at (family_in family.now) member)
        ∷ check_same_cells cells (family_in family.now).cells
        ∷ check_count cells
        ∷ check_nodes cells nodes
        ∷ check_long answer step_values
        ∷ []) }
{
    check_long(family.len(), FAMILY_ENTRIES)?;
    check_stepping(read_family(family), member, cells)?;
    step_shape(cells, nodes, answer)
}
