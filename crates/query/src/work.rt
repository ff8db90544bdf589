// The line for a file, over local lists that have room for every field: reading, then the cell's number, then Reconstruct's checks, and by
// the verdict the parts or the refusal.
ghost use Rattle.std.specs.Prelude.{◌≡◌, ◌≤◌, ◌<◌, length};
ghost use Rattle.numbers.specs.Checks.{both};
ghost use Rattle.qlt_spec.specs.Field.{lists_of, max_scratch};
ghost use Rattle.qlt_spec.specs.Operation.{reconstruct_call, reconstruct_verdict};
ghost use Rattle.files_spec.specs.FieldFile.{fronts};
ghost use Rattle.repair_file.specs.RepairFile.{front_call};
ghost use Rattle.text.specs.Text.{Put};
ghost use Rattle.query_spec.specs.Query.{check_cell, line_by, query_text};

use cell_parts::parts::cell_parts;
use field_checks::total::outcome_of;
use field_file::read_field;
use files_spec::Sizes;
use numbers::Refusal;
use numbers::checks::unless;
use qlt_spec::{FieldLists, MAX_SCRATCH};
use query_lines::lines::{put_parts, put_refused};
use reconstruct::verdict::verdict;
use text::pieces::put_refusal;

// 3: a cell number of n or more.
#[tactic(auto, unfolding(query_spec::specs::Query::check_cell))]
fn check_cell(cell: usize, n: usize) -> Result<(), Refusal>
    ensures { result ≡ check_cell cell n }
{
    unless(cell < n, 3, 0)
}

// The line for the lists of a field with such a cell.
fn put_line(
    field: &FieldLists,
    total: u32,
    cell: usize,
    masses: &[u32],
    scratch: &mut [i64],
    out: &mut [u8],
) -> usize
    requires { (128 ≤ length out.old) × (cell < length field.now.targets.now) × (length field.now.safe_lows.now ≤ 1024) ×
        (length field.now.safe_highs.now ≤ 1024) }
    ensures { Put out.old out.new 0 result
        (line_by (reconstruct_verdict (reconstruct_call (lists_of field.now) total masses.now scratch.old)) (lists_of field.now) total cell) ×
        (result ≤ 128) }
{
    if let Err(refusal) = verdict(field, total, masses, scratch) {
        return put_refused(out, refusal, field.safe_lows, field.safe_highs, total);
    }
    let outcome = outcome_of(field.lows, field.highs, total);
    let parts = cell_parts(outcome, field, total, cell, scratch);
    put_parts(out, outcome.number(), parts)
}

// The line for the fronts of the lists, as long as the sizes say.
fn put_cell(
    sizes: Sizes,
    cell: usize,
    field: &FieldLists,
    masses: &[u32],
    scratch: &mut [i64],
    out: &mut [u8],
) -> usize
    requires cells_bound { (sizes.cells ≤ 512) × (sizes.nodes ≤ 1024) × (128 ≤ length out.old) × (length field.now.targets.now ≡ 512) ×
        (length field.now.lows.now ≡ 512) × (length field.now.highs.now ≡ 512) × (length field.now.safe_lows.now ≡ 512) }
    requires safe_highs_len { (length field.now.safe_highs.now ≡ 512) × (length field.now.weights.now ≡ 512) × (length field.now.parents.now ≡ 1024) ×
        (length masses.now ≡ 512) }
    ensures { Put out.old out.new 0 result
        (line_by
        (both (check_cell cell sizes.cells)
        (reconstruct_verdict (front_call sizes.cells sizes.nodes sizes.total (lists_of field.now) masses.now scratch.old)))
        (fronts sizes.cells sizes.nodes (lists_of field.now)) sizes.total cell) × (result ≤ 128) }
{
    let cells = sizes.cells;
    if let Err(refusal) = check_cell(cell, cells) {
        return put_refusal(out, refusal, b'\n');
    }
    let front = FieldLists {
        targets: &field.targets[..cells],
        lows: &field.lows[..cells],
        highs: &field.highs[..cells],
        safe_lows: &field.safe_lows[..cells],
        safe_highs: &field.safe_highs[..cells],
        weights: &field.weights[..cells],
        parents: &field.parents[..sizes.nodes],
    };
    put_line(&front, sizes.total, cell, &masses[..cells], scratch, out)
}

// The line for a file, over lent lists.
fn put_query_with(
    file: &[u8],
    cell: usize,
    out: &mut [u8],
    targets: &mut [i32],
    lows: &mut [u32],
    highs: &mut [u32],
    safe_lows: &mut [u32],
    safe_highs: &mut [u32],
    weights: &mut [u32],
    parents: &mut [u32],
    masses: &[u32],
    scratch: &mut [i64],
) -> usize
    requires in_bounds { (128 ≤ length out.old) × (length targets.old ≡ 512) × (length lows.old ≡ 512) × (length highs.old ≡ 512) ×
        (length safe_lows.old ≡ 512) }
    requires safe_highs_len { (length safe_highs.old ≡ 512) × (length weights.old ≡ 512) × (length parents.old ≡ 1024) × (length masses.now ≡ 512) ×
        (length scratch.old ≡ max_scratch) }
    ensures { Put out.old out.new 0 result (query_text file.now cell) × (result ≤ 128) }
{
    let read = read_field(
        file, targets, lows, highs, safe_lows, safe_highs, weights, parents,
    );
    match read {
        Err(refusal) => put_refusal(out, refusal, b'\n'),
        Ok(sizes) => {
            let field = FieldLists {
                targets,
                lows,
                highs,
                safe_lows,
                safe_highs,
                weights,
                parents,
            };
            put_cell(sizes, cell, &field, masses, scratch, out)
        }
    }
}

// Puts the line for a file at the front of `out` and returns its length.
pub fn put_query(file: &[u8], cell: usize, out: &mut [u8]) -> usize
    requires { 128 ≤ length out.old }
    ensures { Put out.old out.new 0 result (query_text file.now cell) × (result ≤ 128) }
{
    let mut targets = [0i32; 512];
    let mut lows = [0u32; 512];
    let mut highs = [0u32; 512];
    let mut safe_lows = [0u32; 512];
    let mut safe_highs = [0u32; 512];
    let mut weights = [0u32; 512];
    let mut parents = [0u32; 1024];
    let masses = [0u32; 512];
    let mut scratch = [0i64; MAX_SCRATCH];
    put_query_with(
        file,
        cell,
        out,
        &mut targets,
        &mut lows,
        &mut highs,
        &mut safe_lows,
        &mut safe_highs,
        &mut weights,
        &mut parents,
        &masses,
        &mut scratch,
    )
}
