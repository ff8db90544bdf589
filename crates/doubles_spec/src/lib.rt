// Import and Export, and Export in binary32: doubles to units and units to doubles by IEEE 754. What the operations check and answer, the five
// classes of a double, the nearest value of a format, the forms that the code follows, and the laws. The types, definitions (specs/) and laws
// (proofs/), with a fault's number; the code is in the crates `rounded_division`, `double_fields` and `doubles`. Relies on `numbers`, where the
// roundings stand.
#![tactic(auto)]

ghost use Rattle.std.specs.Prelude.{◌≡◌};
ghost use Rattle.doubles_spec.specs.Forms.{fault_number};

// The five doubles of a cell.
#[derive(Clone, Copy)]
pub struct CellDoubles {
    pub target: f64,
    pub low: f64,
    pub high: f64,
    pub safe_low: f64,
    pub safe_high: f64,
}

// The same in whole units.
#[derive(Clone, Copy)]
pub struct CellUnits {
    pub target: i32,
    pub low: u32,
    pub high: u32,
    pub safe_low: u32,
    pub safe_high: u32,
}

// Why an import is refused: the scale, with no double; or a double as it came, with 01's number and its field, 0 to 4.
#[derive(Clone, Copy)]
pub enum ImportRefusal {
    Scale,
    Double {
        number: u32,
        field: u32,
        double: f64,
    },
}

// The five classes of a double by IEEE 754, in the order of 02 (ticket 4).
#[derive(Clone, Copy)]
pub enum Class {
    Zero,
    Subnormal,
    Normal,
    Infinity,
    NotANumber,
}

// For the code alone: what is left after a division.
#[derive(Clone, Copy)]
pub enum Rest {
    Nothing,
    LessThanHalf,
    Half,
    MoreThanHalf,
}

// For the code alone: a finite double times 2^k. The sign, the whole part of the size (cut at 2^52, which is out of every range) and what is
// left of it.
#[derive(Clone, Copy)]
pub struct Product {
    pub negative: bool,
    pub whole: u64,
    pub rest: Rest,
}

// For the code alone: why a field is refused.
#[derive(Clone, Copy)]
pub enum FieldFault {
    NotFinite,
    OutOfRange,
}

impl FieldFault {
    // The number that 01 gives it.
    pub fn number(self) -> u32
        ensures { result ≡ fault_number self }
    {
        match self {
            FieldFault::NotFinite => 10,
            FieldFault::OutOfRange => 11,
        }
    }
}
