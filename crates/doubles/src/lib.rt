// The operations Import and Export, and Export in binary32. Public: `import`, `export`, `export_single`. Below them, for this crate alone: powers
// of two as doubles (`power`), a mass as a binary32 (`singles`). What a double gives in a field is in the crate `double_fields`. Relies on this,
// `rounded_division`, `doubles_spec` and `numbers`.
#![tactic(auto)]

ghost use Rattle.std.specs.Prelude.{◌≡◌};
ghost use Rattle.doubles_spec.specs.Forms.{named};
ghost use Rattle.doubles_spec.specs.Import.{ImportContract};
ghost use Rattle.doubles_spec.specs.Export.{check_mass, export_verdict, ExportContract};
ghost use Rattle.doubles_spec.specs.ExportSingle.{SingleContract};

use double_fields::fields;
use doubles_spec::{CellDoubles, CellUnits, FieldFault, ImportRefusal};
use numbers::Refusal;
use numbers::checks::{check_scale, unless};

mod power;
mod singles;

// What a field gives; its refusal with its number, its place and its double as it came.
fn named<T>(given: Result<T, FieldFault>, field: u32, double: f64) -> Result<T, ImportRefusal>
    ensures { result ≡ named given field double }
{
    given.map_err(|fault| ImportRefusal::Double {
        number: fault.number(),
        field,
        double,
    })
}

// A cell's doubles in whole units at a scale.
pub fn import(cell: CellDoubles, scale: u32) -> Result<CellUnits, ImportRefusal>
    ensures { ImportContract cell scale result }
{
    if scale > 30 {
        return Err(ImportRefusal::Scale);
    }
    let target = named(fields::target_field(cell.target, scale), 0, cell.target)?;
    let low = named(fields::low_field(cell.low, scale), 1, cell.low)?;
    let high = named(fields::high_field(cell.high, scale), 2, cell.high)?;
    let safe_low = named(fields::low_field(cell.safe_low, scale), 3, cell.safe_low)?;
    let safe_high = named(fields::high_field(cell.safe_high, scale), 4, cell.safe_high)?;
    Ok(CellUnits {
        target,
        low,
        high,
        safe_low,
        safe_high,
    })
}

// 11: the mass is at most 2147483647.
#[tactic(auto, unfolding(doubles_spec::specs::Export::check_mass))]
fn check_mass(mass: u32) -> Result<(), Refusal>
    ensures { result ≡ check_mass mass }
{
    unless(mass <= 2147483647, 11, 0)
}

// The checks of both exports, in 01's order.
#[tactic(auto, unfolding(doubles_spec::specs::Export::export_verdict))]
fn check_export(mass: u32, scale: u32) -> Result<(), Refusal>
    ensures { result ≡ export_verdict mass scale }
{
    check_scale(scale)?;
    check_mass(mass)
}

// mass × 2^−scale, exactly.
pub fn export(mass: u32, scale: u32) -> Result<f64, Refusal>
    ensures { ExportContract mass scale result }
{
    check_export(mass, scale)?;
    Ok(f64::from(mass) * power::power(scale))
}

// The binary32 nearest to mass × 2^−scale, ties to even.
pub fn export_single(mass: u32, scale: u32) -> Result<f32, Refusal>
    ensures { SingleContract mass scale result }
{
    check_export(mass, scale)?;
    Ok(singles::single(mass, scale))
}
