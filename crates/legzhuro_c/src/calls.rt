// The work of the calls whose operations stand in other crates: the checks of the lists for a call's values, the operation, and its values put into
// these lists. A refused call writes no values.
ghost use Rattle.caas_spec.specs.Operation.{split_call};
ghost use Rattle.qlt_spec.specs.Field.{lists_of};
ghost use Rattle.kept_spec.specs.Step.{step_call};
ghost use Rattle.files_spec.specs.WriteField.{field_write_call};
ghost use Rattle.call_values.specs.Values.{returned};
ghost use Rattle.legzhuro_c.specs.Calls.{SplitReturns, OpenReturns, StepReturns, ImportReturns, ExportReturns, SingleReturns};
ghost use Rattle.legzhuro_c.specs.FileCalls.{WriteFieldReturns, ReadAnswerReturns};

use crate::returns;
use call_values::values::{OPEN_VALUES, put_balance, put_result, step_shape};
use doubles_spec::CellDoubles;
use kept_spec::Balance;
use numbers::Refusal;
use numbers::checks::check_long;
use qlt_spec::FieldLists;

pub fn split(
    targets: &[i64],
    lows: &[i64],
    highs: &[i64],
    weights: &[i64],
    total: i64,
    masses: &mut [i64],
    deficit: &mut [i64],
) -> Result<(), Refusal>
    ensures { SplitReturns
        (split_call targets.now lows.now highs.now weights.now total masses.old)
        deficit.old (returned result) masses.new deficit.new }
{
    returns::split_shape(targets.len(), deficit.len())?;
    let d = split::split(targets, lows, highs, weights, total, masses)?;
    returns::put_deficit(d, deficit);
    Ok(())
}

pub fn open(kept: &[u32], scale: u32, answer: &mut [u64]) -> Result<(), Refusal>
    ensures { OpenReturns kept.now scale answer.old (returned result) answer.new }
{
    check_long(answer.len(), OPEN_VALUES)?;
    let balance = kept::open(kept, scale)?;
    put_balance(balance, answer);
    Ok(())
}

pub fn step(
    balance: Balance,
    kept: &mut [u32],
    source: i32,
    scale: u32,
    field: &FieldLists,
    scratch: &mut [i64],
    book: &mut [u8],
    book_length: usize,
    answer: &mut [u64],
) -> Result<(), Refusal>
    ensures { StepReturns
        (step_call balance kept.old source scale (lists_of field.now) scratch.old book.old
        book_length) answer.old (returned result) kept.new scratch.new book.new answer.new }
{
    step_shape(field.targets.len(), field.parents.len(), answer.len())?;
    let stepped = kept::step(
        balance,
        kept,
        source,
        scale,
        field,
        scratch,
        book,
        book_length,
    )?;
    put_result(stepped.repair, stepped.length, answer);
    Ok(())
}

pub fn import(cell: CellDoubles, scale: u32, units: &mut [i64]) -> Result<(), Refusal>
    ensures { ImportReturns cell scale units.old (returned result) units.new }
{
    check_long(units.len(), 5)?;
    match doubles::import(cell, scale) {
        Ok(cell_units) => {
            returns::put_units(cell_units, units);
            Ok(())
        }
        Err(refused) => Err(returns::refusal_of(refused)),
    }
}

pub fn export(mass: u32, scale: u32, value: &mut [f64]) -> Result<(), Refusal>
    ensures { ExportReturns mass scale value.old (returned result) value.new }
{
    check_long(value.len(), 1)?;
    let x = doubles::export(mass, scale)?;
    returns::put_double(x, value);
    Ok(())
}

pub fn export_single(mass: u32, scale: u32, value: &mut [f32]) -> Result<(), Refusal>
    ensures { SingleReturns mass scale value.old (returned result) value.new }
{
    check_long(value.len(), 1)?;
    let x = doubles::export_single(mass, scale)?;
    returns::put_single(x, value);
    Ok(())
}

pub fn write_field(
    cells: usize,
    nodes: usize,
    total: u32,
    field: &FieldLists,
    buffer: &mut [u8],
) -> Result<(), Refusal>
    ensures { WriteFieldReturns
        (field_write_call cells nodes total (lists_of field.now) buffer.old) (returned result)
        buffer.new }
{
    field_file::write_field(cells, nodes, total, field, buffer)?;
    Ok(())
}

pub fn read_answer(file: &[u8], masses: &mut [u32], answer: &mut [u64]) -> Result<(), Refusal>
    ensures { ReadAnswerReturns file.now masses.old answer.old (returned result) masses.new answer.new }
{
    let room = returns::answer_room(masses.len(), answer.len());
    let repaired = answer_file::read_answer(file, &mut masses[0..room])?;
    returns::put_answer(repaired, answer);
    Ok(())
}
