// The calls from C, a static library. `include/legzhuro.h` documents them. Public: the nineteen functions here. Each lends its lists to a function
// that answers a Result, and returns that as one number; these functions are in `calls` and `whole`, and in `family_calls`, `turn_calls`
// and `book_calls`. What they put into the lent lists is in `returns` and in `call_values`. The lists of a field come one by one, as C lends them.
// Relies on every operation and on `repair_file` and `numbers`.
#![tactic(auto)]

ghost use Rattle.caas_spec.specs.Operation.{split_call};
ghost use Rattle.qlt_spec.specs.Field.{lists};
ghost use Rattle.kept_spec.specs.Step.{step_call};
ghost use Rattle.bounds_spec.specs.Bounds.{mixing, bounds, bounds_call};
ghost use Rattle.files_spec.specs.WriteField.{field_write_call};
ghost use Rattle.family_spec.specs.Member.{step_inputs};
ghost use Rattle.family_calls.specs.Calls.{FamilyStartReturns, FamilyOpenReturns, FamilyStepReturns};
ghost use Rattle.book_calls.specs.BookCalls.{BookStartReturns, BookReportReturns};
ghost use Rattle.turn_calls.specs.TurnCalls.{FamilyRegisterReturns, FamilyNextReturns, FamilyWaitingReturns, FamilyTurnReturns};
ghost use Rattle.legzhuro_c.specs.Calls.{ReconstructReturns, SplitReturns, OpenReturns, StepReturns, BoundsReturns, ImportReturns, ExportReturns, SingleReturns};
ghost use Rattle.legzhuro_c.specs.FileCalls.{WriteFieldReturns, ReadAnswerReturns};

use call_values::values::returned;
use doubles_spec::CellDoubles;
use kept_spec::Balance;
use qlt_spec::{FieldLists, MAX_SCRATCH};

mod calls;
mod returns;
mod whole;

// Reads a field file, repairs the field's masses and writes the answer file. Returns 0 or the refusal's number.
#[unsafe(no_mangle)]
pub extern "C" fn legzhuro_reconstruct(file: &[u8], answer: &mut [u8]) -> u32
    ensures { ReconstructReturns file.now answer.old result answer.new }
{
    let mut targets = [0i32; 512];
    let mut lows = [0u32; 512];
    let mut highs = [0u32; 512];
    let mut safe_lows = [0u32; 512];
    let mut safe_highs = [0u32; 512];
    let mut weights = [0u32; 512];
    let mut parents = [0u32; 1024];
    let mut masses = [0u32; 512];
    let mut scratch = [0i64; MAX_SCRATCH];
    let written = whole::answer_file(
        file,
        answer,
        &mut targets,
        &mut lows,
        &mut highs,
        &mut safe_lows,
        &mut safe_highs,
        &mut weights,
        &mut parents,
        &mut masses,
        &mut scratch,
    );
    returns::number_of(written)
}

// Split: deficit[0] is 01's d.
#[unsafe(no_mangle)]
pub extern "C" fn legzhuro_split(
    targets: &[i64],
    lows: &[i64],
    highs: &[i64],
    weights: &[i64],
    total: i64,
    masses: &mut [i64],
    deficit: &mut [i64],
) -> u64
    ensures { SplitReturns
        (split_call targets.now lows.now highs.now weights.now total masses.old)
        deficit.old result masses.new deficit.new }
{
    returned(calls::split(targets, lows, highs, weights, total, masses, deficit))
}

// Open: answer[0] is the total, answer[1] the scale.
#[unsafe(no_mangle)]
pub extern "C" fn legzhuro_open(kept: &[u32], scale: u32, answer: &mut [u64]) -> u64
    ensures { OpenReturns kept.now scale answer.old result answer.new }
{
    returned(calls::open(kept, scale, answer))
}

// Step, with the balance in two numbers: answer[0] is the outcome, answer[1] the new total, answer[2] the change, answer[3] what was shared
// out, answer[4] the book's new length. The new balance is answer[1] at the same scale.
#[unsafe(no_mangle)]
pub extern "C" fn legzhuro_step(
    total: u32,
    total_scale: u32,
    kept: &mut [u32],
    source: i32,
    scale: u32,
    targets: &[i32],
    lows: &[u32],
    highs: &[u32],
    safe_lows: &[u32],
    safe_highs: &[u32],
    weights: &[u32],
    parents: &[u32],
    scratch: &mut [i64],
    book: &mut [u8],
    book_length: usize,
    answer: &mut [u64],
) -> u64
    ensures { StepReturns
        (step_call (record { total = total; scale = total_scale }) kept.old source scale
        (lists targets.now lows.now highs.now safe_lows.now safe_highs.now
        weights.now parents.now)
        scratch.old book.old book_length)
        answer.old result kept.new scratch.new book.new answer.new }
{
    let field = FieldLists {
        targets,
        lows,
        highs,
        safe_lows,
        safe_highs,
        weights,
        parents,
    };
    returned(calls::step(
        Balance {
            total,
            scale: total_scale,
        },
        kept,
        source,
        scale,
        &field,
        scratch,
        book,
        book_length,
        answer,
    ))
}

// Bounds.
#[unsafe(no_mangle)]
pub extern "C" fn legzhuro_bounds(
    air: &[u32],
    low_ratios: &[u32],
    high_ratios: &[u32],
    lows: &mut [u32],
    highs: &mut [u32],
    safe_lows: &mut [u32],
    safe_highs: &mut [u32],
) -> u64
    ensures { BoundsReturns
        (bounds_call (mixing air.now low_ratios.now high_ratios.now)
        (bounds lows.old highs.old safe_lows.old safe_highs.old)) result
        (bounds lows.new highs.new safe_lows.new safe_highs.new) }
{
    returned(bounds::bounds(
        air,
        low_ratios,
        high_ratios,
        lows,
        highs,
        safe_lows,
        safe_highs,
    ))
}

// Import: units[0] to units[4] are the target, low, high, safe low and safe high.
#[unsafe(no_mangle)]
pub extern "C" fn legzhuro_import(
    target: f64,
    low: f64,
    high: f64,
    safe_low: f64,
    safe_high: f64,
    scale: u32,
    units: &mut [i64],
) -> u64
    ensures { ImportReturns (record { target = target; low = low; high = high; safe_low = safe_low; safe_high = safe_high }) scale
        units.old result units.new }
{
    let cell = CellDoubles {
        target,
        low,
        high,
        safe_low,
        safe_high,
    };
    returned(calls::import(cell, scale, units))
}

// Export: value[0] is the double.
#[unsafe(no_mangle)]
pub extern "C" fn legzhuro_export(mass: u32, scale: u32, value: &mut [f64]) -> u64
    ensures { ExportReturns mass scale value.old result value.new }
{
    returned(calls::export(mass, scale, value))
}

// Export in binary32: value[0] is the binary32.
#[unsafe(no_mangle)]
pub extern "C" fn legzhuro_export_single(mass: u32, scale: u32, value: &mut [f32]) -> u64
    ensures { SingleReturns mass scale value.old result value.new }
{
    returned(calls::export_single(mass, scale, value))
}

// Write a field file.
#[unsafe(no_mangle)]
pub extern "C" fn legzhuro_write_field(
    cells: usize,
    nodes: usize,
    total: u32,
    targets: &[i32],
    lows: &[u32],
    highs: &[u32],
    safe_lows: &[u32],
    safe_highs: &[u32],
    weights: &[u32],
    parents: &[u32],
    buffer: &mut [u8],
) -> u64
    ensures { WriteFieldReturns
        (field_write_call cells nodes total
        (lists targets.now lows.now highs.now safe_lows.now safe_highs.now
        weights.now parents.now)
        buffer.old) result buffer.new }
{
    let field = FieldLists {
        targets,
        lows,
        highs,
        safe_lows,
        safe_highs,
        weights,
        parents,
    };
    returned(calls::write_field(cells, nodes, total, &field, buffer))
}

// Read an answer: answer[0] is the number of cells, answer[1] the outcome, answer[2] the total, answer[3] the change, answer[4] what was
// shared out.
#[unsafe(no_mangle)]
pub extern "C" fn legzhuro_read_answer(file: &[u8], masses: &mut [u32], answer: &mut [u64]) -> u64
    ensures { ReadAnswerReturns file.now masses.old answer.old result masses.new answer.new }
{
    returned(calls::read_answer(file, masses, answer))
}

// Start a family, which stands in a lent list.
#[unsafe(no_mangle)]
pub extern "C" fn legzhuro_family_start(cap: u64, scale: u32, cells: u32, family: &mut [u64]) -> u64
    ensures { FamilyStartReturns cap scale cells family.old result family.new }
{
    returned(family_calls::start(cap, scale, cells, family))
}

// Open a member of a family: answer[0] is the total, answer[1] the scale.
#[unsafe(no_mangle)]
pub extern "C" fn legzhuro_family_open(
    family: &mut [u64],
    member: u32,
    kept: &[u32],
    scale: u32,
    answer: &mut [u64],
) -> u64
    ensures { FamilyOpenReturns family.old member kept.now scale answer.old result family.new
        answer.new }
{
    returned(family_calls::open(family, member, kept, scale, answer))
}

// Step a member of a family: answer[0] is the outcome, answer[1] the new total, answer[2] the change, answer[3] what was shared out,
// answer[4] the book's new length.
#[unsafe(no_mangle)]
pub extern "C" fn legzhuro_family_step(
    family: &mut [u64],
    member: u32,
    kept: &mut [u32],
    source: i32,
    scale: u32,
    targets: &[i32],
    lows: &[u32],
    highs: &[u32],
    safe_lows: &[u32],
    safe_highs: &[u32],
    weights: &[u32],
    parents: &[u32],
    scratch: &mut [i64],
    book: &mut [u8],
    book_length: usize,
    answer: &mut [u64],
) -> u64
    ensures { FamilyStepReturns family.old member
        (step_inputs kept.old source scale
        (lists targets.now lows.now highs.now safe_lows.now safe_highs.now
        weights.now parents.now)
        scratch.old book.old book_length)
        answer.old result family.new kept.new scratch.new book.new answer.new }
{
    let field = FieldLists {
        targets,
        lows,
        highs,
        safe_lows,
        safe_highs,
        weights,
        parents,
    };
    returned(family_calls::step(
        family,
        member,
        kept,
        source,
        scale,
        &field,
        scratch,
        book,
        book_length,
        answer,
    ))
}

// Register a member of a family as waiting.
#[unsafe(no_mangle)]
pub extern "C" fn legzhuro_family_register(family: &mut [u64], member: u32) -> u64
    ensures { FamilyRegisterReturns family.old member result family.new }
{
    returned(turn_calls::register(family, member))
}

// Read the next in turn: answer[0] is the member, or 8 for nobody.
#[unsafe(no_mangle)]
pub extern "C" fn legzhuro_family_next(family: &[u64], answer: &mut [u64]) -> u64
    ensures { FamilyNextReturns family.now answer.old result answer.new }
{
    returned(turn_calls::next(family, answer))
}

// Read how many members wait: answer[0] is their number.
#[unsafe(no_mangle)]
pub extern "C" fn legzhuro_family_waiting(family: &[u64], answer: &mut [u64]) -> u64
    ensures { FamilyWaitingReturns family.now answer.old result answer.new }
{
    returned(turn_calls::waiting(family, answer))
}

// Serve the next in turn: answer[0] is the member, or 8 for idle, answer[1] what its step returned, answer[2] the outcome, answer[3] the new
// total, answer[4] the change, answer[5] what was shared out, answer[6] the book's new length.
#[unsafe(no_mangle)]
pub extern "C" fn legzhuro_family_turn(
    family: &mut [u64],
    kept: &mut [u32],
    source: i32,
    scale: u32,
    targets: &[i32],
    lows: &[u32],
    highs: &[u32],
    safe_lows: &[u32],
    safe_highs: &[u32],
    weights: &[u32],
    parents: &[u32],
    scratch: &mut [i64],
    book: &mut [u8],
    book_length: usize,
    answer: &mut [u64],
) -> u64
    ensures { FamilyTurnReturns family.old
        (step_inputs kept.old source scale
        (lists targets.now lows.now highs.now safe_lows.now safe_highs.now
        weights.now parents.now)
        scratch.old book.old book_length)
        answer.old result family.new kept.new scratch.new book.new answer.new }
{
    let field = FieldLists {
        targets,
        lows,
        highs,
        safe_lows,
        safe_highs,
        weights,
        parents,
    };
    returned(turn_calls::turn(
        family,
        kept,
        source,
        scale,
        &field,
        scratch,
        book,
        book_length,
        answer,
    ))
}

// Start a book at the front of a buffer: answer[0] is its length in bytes.
#[unsafe(no_mangle)]
pub extern "C" fn legzhuro_book_start(total: u32, buffer: &mut [u8], answer: &mut [u64]) -> u64
    ensures { BookStartReturns total buffer.old answer.old result buffer.new answer.new }
{
    returned(book_calls::start(total, buffer, answer))
}

// Read a book: answer[0] is the opening total, answer[1] what came in, answer[2] what went out, answer[3] the closing total.
#[unsafe(no_mangle)]
pub extern "C" fn legzhuro_book_report(file: &[u8], answer: &mut [u64]) -> u64
    ensures { BookReportReturns file.now answer.old result answer.new }
{
    returned(book_calls::report(file, answer))
}
