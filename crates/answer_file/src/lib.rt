// The operations Write an answer and Read an answer. Public: `write_answer`, `read_answer`; the checks, and the writing and reading of the
// blocks, are in modules of their own, for this crate alone. Relies on `files_spec`, `block_tables`, `blocks`, `qlt_spec` and `numbers`.
#![tactic(auto)]

ghost use Rattle.files_spec.specs.WriteAnswer.{write_call, WriteContract};
ghost use Rattle.files_spec.specs.ReadAnswer.{AnswerReadContract};

use files_spec::Repaired;
use numbers::Refusal;
use qlt_spec::Repair;

mod verdict;
mod work;

// Writes the answer file of the first `cells` masses to the front of the buffer, and returns its length. A refused call writes nothing.
pub fn write_answer(
    cells: usize,
    repair: Repair,
    masses: &[u32],
    buffer: &mut [u8],
) -> Result<usize, Refusal>
    ensures { WriteContract (write_call cells repair masses.now buffer.old) result buffer.new }
{
    verdict::write_verdict(cells, repair, masses, buffer)?;
    work::put_answer(buffer, cells, repair, masses);
    Ok(verdict::file_length(cells))
}

// Reads an answer file's masses into the front of a list, which may be longer. A refused call writes nothing.
#[tactic(auto, unfolding(files_spec::specs::ReadAnswer::answer_read_verdict))]
pub fn read_answer(file: &[u8], masses: &mut [u32]) -> Result<Repaired, Refusal>
    ensures { AnswerReadContract file.now masses.old result masses.new }
{
    verdict::head_verdict(file, masses.len())?;
    verdict::later_verdict(file)?;
    verdict::sum_verdict(file)?;
    work::read_masses(file, masses);
    Ok(work::told(file))
}
