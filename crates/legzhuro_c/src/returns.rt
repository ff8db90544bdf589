// Values put into the lent lists, and the checks of those lists, beside those of `call_values`.
ghost use Rattle.std.specs.Prelude.{◌≡◌, Err, [], ◌∷◌, ◌≤◌, length};
ghost use Rattle.numbers.specs.Lists.{written};
ghost use Rattle.numbers.specs.Checks.{first, check_count, check_long};
ghost use Rattle.doubles_spec.specs.Import.{import_tells};
ghost use Rattle.legzhuro_c.specs.Calls.{number_of, units_list};
ghost use Rattle.legzhuro_c.specs.FileCalls.{read_values, answer_room, repaired_words};

use doubles_spec::{CellUnits, ImportRefusal};
use files_spec::Repaired;
use numbers::Refusal;
use numbers::checks::{check_count, check_long};

// The values that Read an answer tells; `read_values` in specs/.
const READ_VALUES: usize = 5;

// Split's 1, and under 3 the list for d.
pub fn split_shape(items: usize, deficit: usize) -> Result<(), Refusal>
    ensures { result ≡ first (check_count items ∷ check_long deficit 1 ∷ []) }
{
    check_count(items)?;
    check_long(deficit, 1)
}

// The room for masses that a reading finds: none if the list for its values is too short.
pub fn answer_room(masses: usize, answer: usize) -> usize
    ensures { result ≡ answer_room masses answer }
{
    if READ_VALUES <= answer { masses } else { 0 }
}

// 0, or the refusal's number.
pub fn number_of(verdict: Result<(), Refusal>) -> u32
    ensures { result ≡ number_of verdict }
{
    match verdict {
        Ok(()) => 0,
        Err(refusal) => refusal.number,
    }
}

// An import's refusal without the double: the scale's, or a field's, whose place is the field.
#[tactic(auto, unfolding(doubles_spec::specs::Import::import_tells))]
pub fn refusal_of(refused: ImportRefusal) -> Refusal
    ensures { Err result ≡ import_tells (Err refused) }
{
    match refused {
        ImportRefusal::Scale => Refusal {
            number: 9,
            place: 0,
        },
        ImportRefusal::Double {
            number,
            field,
            double: _,
        } => Refusal {
            number,
            place: field,
        },
    }
}

// Each of these puts the values of an accepted call.
pub fn put_deficit(d: i64, deficit: &mut [i64])
    requires { 1 ≤ length deficit.old }
    ensures { deficit.new ≡ written deficit.old 0 (d ∷ []) }
{
    deficit[0] = d;
}

pub fn put_answer(repaired: Repaired, answer: &mut [u64])
    requires { read_values ≤ length answer.old }
    ensures { answer.new ≡ written answer.old 0 (repaired_words repaired) }
{
    answer[0] = repaired.cells as u64;
    answer[1] = u64::from(repaired.repair.outcome);
    answer[2] = u64::from(repaired.repair.total);
    answer[3] = repaired.repair.change;
    answer[4] = repaired.repair.shared;
}

pub fn put_units(cell: CellUnits, units: &mut [i64])
    requires { 5 ≤ length units.old }
    ensures { units.new ≡ written units.old 0 (units_list cell) }
{
    units[0] = i64::from(cell.target);
    units[1] = i64::from(cell.low);
    units[2] = i64::from(cell.high);
    units[3] = i64::from(cell.safe_low);
    units[4] = i64::from(cell.safe_high);
}

pub fn put_double(x: f64, value: &mut [f64])
    requires { 1 ≤ length value.old }
    ensures { value.new ≡ written value.old 0 (x ∷ []) }
{
    value[0] = x;
}

pub fn put_single(x: f32, value: &mut [f32])
    requires { 1 ≤ length value.old }
    ensures { value.new ≡ written value.old 0 (x ∷ []) }
{
    value[0] = x;
}
