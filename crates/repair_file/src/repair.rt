// Reading, then Reconstruct, over lent lists with room for every field.
ghost use Rattle.std.specs.Prelude.{◌≡◌, ◌≤◌, length};
ghost use Rattle.qlt_spec.specs.Field.{lists, lists_of, max_scratch};
ghost use Rattle.repair_file.specs.RepairFile.{RepairsFile, RepairsFronts};

use field_file::read_field;
use files_spec::{Repaired, Sizes};
use numbers::Refusal;
use qlt_spec::FieldLists;
use reconstruct::reconstruct;

// Reconstruct on the fronts of the lists, as long as the sizes say, with the number of cells beside its answer.
fn repair_lists(
    sizes: Sizes,
    field: &FieldLists,
    masses: &mut [u32],
    scratch: &mut [i64],
) -> Result<Repaired, Refusal>
    requires cells_bound { (sizes.cells ≤ 512) × (sizes.nodes ≤ 1024) × (length field.now.targets.now ≡ 512) × (length field.now.lows.now ≡ 512) ×
        (length field.now.highs.now ≡ 512) × (length field.now.safe_lows.now ≡ 512) }
    requires safe_highs_len { (length field.now.safe_highs.now ≡ 512) × (length field.now.weights.now ≡ 512) × (length field.now.parents.now ≡ 1024) ×
        (length masses.old ≡ 512) }
    ensures { RepairsFronts sizes.cells sizes.nodes sizes.total (lists_of field.now) masses.old scratch.old result masses.new scratch.new }
{
    let cells = sizes.cells;
    let front = FieldLists {
        targets: &field.targets[..cells],
        lows: &field.lows[..cells],
        highs: &field.highs[..cells],
        safe_lows: &field.safe_lows[..cells],
        safe_highs: &field.safe_highs[..cells],
        weights: &field.weights[..cells],
        parents: &field.parents[..sizes.nodes],
    };
    let answer = reconstruct(&front, sizes.total, &mut masses[..cells], scratch);
    let repair = answer?;
    Ok(Repaired { cells, repair })
}

// The masses of the field in a file.
pub fn repair_file(
    file: &[u8],
    targets: &mut [i32],
    lows: &mut [u32],
    highs: &mut [u32],
    safe_lows: &mut [u32],
    safe_highs: &mut [u32],
    weights: &mut [u32],
    parents: &mut [u32],
    masses: &mut [u32],
    scratch: &mut [i64],
) -> Result<Repaired, Refusal>
    requires targets_len { (length targets.old ≡ 512) × (length lows.old ≡ 512) × (length highs.old ≡ 512) × (length safe_lows.old ≡ 512) }
    requires safe_highs_len { (length safe_highs.old ≡ 512) × (length weights.old ≡ 512) × (length parents.old ≡ 1024) × (length masses.old ≡ 512) ×
        (length scratch.old ≡ max_scratch) }
    ensures { RepairsFile file.now
        (lists targets.old lows.old highs.old safe_lows.old safe_highs.old
        weights.old parents.old)
        masses.old scratch.old result
        (lists targets.new lows.new highs.new safe_lows.new safe_highs.new
        weights.new parents.new)
        masses.new scratch.new }
{
    let sizes = read_field(
        file, targets, lows, highs, safe_lows, safe_highs, weights, parents,
    )?;
    let field = FieldLists {
        targets,
        lows,
        highs,
        safe_lows,
        safe_highs,
        weights,
        parents,
    };
    repair_lists(sizes, &field, masses, scratch)
}
