// The file call over lent lists that have room for every field.
ghost use Rattle.std.specs.Prelude.{◌≡◌, length};
ghost use Rattle.qlt_spec.specs.Field.{max_scratch};
ghost use Rattle.legzhuro_c.specs.Calls.{number_of, ReconstructReturns};

use answer_file::write_answer;
use numbers::Refusal;
use repair_file::repair::repair_file;

pub fn answer_file(
    file: &[u8],
    answer: &mut [u8],
    targets: &mut [i32],
    lows: &mut [u32],
    highs: &mut [u32],
    safe_lows: &mut [u32],
    safe_highs: &mut [u32],
    weights: &mut [u32],
    parents: &mut [u32],
    masses: &mut [u32],
    scratch: &mut [i64],
) -> Result<(), Refusal>
    requires targets_len { (length targets.old ≡ 512) × (length lows.old ≡ 512) × (length highs.old ≡ 512) × (length safe_lows.old ≡ 512) }
    requires safe_highs_len { (length safe_highs.old ≡ 512) × (length weights.old ≡ 512) × (length parents.old ≡ 1024) × (length masses.old ≡ 512) ×
        (length scratch.old ≡ max_scratch) }
    ensures { ReconstructReturns file.now answer.old (number_of result) answer.new }
{
    let repaired = repair_file(
        file, targets, lows, highs, safe_lows, safe_highs, weights, parents, masses, scratch,
    )?;
    write_answer(
        repaired.cells,
        repaired.repair,
        &masses[0..repaired.cells],
        answer,
    )?;
    Ok(())
}
