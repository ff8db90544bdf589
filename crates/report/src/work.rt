// The text for a file, over local lists that have room for every field.
ghost use Rattle.std.specs.Prelude.{◌≡◌, ◌≤◌, length};
ghost use Rattle.qlt_spec.specs.Field.{max_scratch};
ghost use Rattle.text.specs.Text.{Put};
ghost use Rattle.report.specs.Report.{report_text};

use listing::lines::put_listing;
use qlt_spec::MAX_SCRATCH;
use repair_file::repair::repair_file;
use text::pieces::put_refusal;

// The same over lent lists.
fn put_report_with(
    file: &[u8],
    out: &mut [u8],
    targets: &mut [i32],
    lows: &mut [u32],
    highs: &mut [u32],
    safe_lows: &mut [u32],
    safe_highs: &mut [u32],
    weights: &mut [u32],
    parents: &mut [u32],
    masses: &mut [u32],
    scratch: &mut [i64],
) -> usize
    requires in_bounds { (16384 ≤ length out.old) × (length targets.old ≡ 512) × (length lows.old ≡ 512) × (length highs.old ≡ 512) ×
        (length safe_lows.old ≡ 512) }
    requires safe_highs_len { (length safe_highs.old ≡ 512) × (length weights.old ≡ 512) × (length parents.old ≡ 1024) × (length masses.old ≡ 512) ×
        (length scratch.old ≡ max_scratch) }
    ensures { Put out.old out.new 0 result (report_text file.now) × (result ≤ 16384) }
{
    let answer = repair_file(
        file, targets, lows, highs, safe_lows, safe_highs, weights, parents, masses, scratch,
    );
    match answer {
        Err(refusal) => put_refusal(out, refusal, b'\n'),
        Ok(repaired) => put_listing(
            out,
            repaired.repair,
            &masses[..repaired.cells],
            &targets[..repaired.cells],
        ),
    }
}

// Puts the text for a file at the front of `out` and returns its length.
pub fn put_report(file: &[u8], out: &mut [u8]) -> usize
    requires { 16384 ≤ length out.old }
    ensures { Put out.old out.new 0 result (report_text file.now) × (result ≤ 16384) }
{
    let mut targets = [0i32; 512];
    let mut lows = [0u32; 512];
    let mut highs = [0u32; 512];
    let mut safe_lows = [0u32; 512];
    let mut safe_highs = [0u32; 512];
    let mut weights = [0u32; 512];
    let mut parents = [0u32; 1024];
    let mut masses = [0u32; 512];
    let mut scratch = [0i64; MAX_SCRATCH];
    put_report_with(
        file,
        out,
        &mut targets,
        &mut lows,
        &mut highs,
        &mut safe_lows,
        &mut safe_highs,
        &mut weights,
        &mut parents,
        &mut masses,
        &mut scratch,
    )
}
