// 1 to 3: of lengths alone.
ghost use Rattle.std.specs.Prelude.{◌≡◌, ◌≤◌, length};
ghost use Rattle.qlt_spec.specs.Field.{scratch_per_node, lists_of, cells, nodes};
ghost use Rattle.qlt_spec.specs.Checks.{check_nodes, check_lists, shape_of};

use numbers::Refusal;
use numbers::checks::{check_count, unless};
use qlt_spec::{FieldLists, SCRATCH_PER_NODE};

// 2: the number of nodes is at least that of cells, and at most 1024.
#[tactic(auto, unfolding(qlt_spec::specs::Checks::check_nodes))]
pub fn check_nodes(n: usize, m: usize) -> Result<(), Refusal>
    ensures { result ≡ check_nodes n m }
{
    unless(n <= m && m <= 1024, 2, 0)
}

// 3: lists of other lengths, `masses` that of the masses, or too short a scratch.
#[tactic(auto, unfolding(qlt_spec::specs::Checks::check_lists))]
fn check_lists(field: &FieldLists, masses: usize, scratch: usize) -> Result<(), Refusal>
    requires { nodes (lists_of field.now) ≤ 1024 }
    ensures { result ≡ check_lists scratch_per_node (cells (lists_of field.now)) (nodes (lists_of field.now)) masses (length field.now.lows.now)
        (length field.now.highs.now) (length field.now.safe_lows.now) (length field.now.safe_highs.now) (length field.now.weights.now) scratch }
{
    let n = field.targets.len();
    unless(
        masses == n
            && (field.lows.len() == n
                && (field.highs.len() == n
                    && (field.safe_lows.len() == n
                        && (field.safe_highs.len() == n
                            && (field.weights.len() == n
                                && SCRATCH_PER_NODE * field.parents.len() <= scratch))))),
        3,
        0,
    )
}

// 1 to 3: of lengths alone; `masses` and `scratch` are those of the masses and of the scratch.
#[tactic(auto, unfolding(qlt_spec::specs::Checks::check_shape), using(numbers::proofs::CheckLaws::last))]
pub fn check_shape(field: &FieldLists, masses: usize, scratch: usize) -> Result<(), Refusal>
    ensures { result ≡ shape_of masses (lists_of field.now) scratch }
{
    check_count(field.targets.len())?;
    check_nodes(field.targets.len(), field.parents.len())?;
    check_lists(field, masses, scratch)
}
