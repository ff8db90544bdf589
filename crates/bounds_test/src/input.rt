// What stands before the lists of a case.
ghost use Rattle.std.specs.Prelude.{◌≤◌};

use test_support::reader::{Reader, target};

// The lengths of the lists, and the source of the step.
#[derive(Clone, Copy)]
pub struct Case {
    pub air: usize,
    pub low_ratios: usize,
    pub high_ratios: usize,
    pub lows: usize,
    pub highs: usize,
    pub safe_lows: usize,
    pub safe_highs: usize,
    pub source: i32,
}

// The length of a list that stands next.
fn count(reader: &mut Reader) -> usize
    ensures { result ≤ 600 }
{
    usize::try_from(reader.signed()).unwrap_or(0).min(600)
}

// The eight numbers that stand next. A source has the range of a target.
pub fn read_case(reader: &mut Reader) -> Case
    ensures { (result.air ≤ 600) × (result.low_ratios ≤ 600) × (result.high_ratios ≤ 600) × (result.lows ≤ 600) × (result.highs ≤ 600) × (result.safe_lows ≤ 600) ×
        (result.safe_highs ≤ 600) }
{
    Case {
        air: count(reader),
        low_ratios: count(reader),
        high_ratios: count(reader),
        lows: count(reader),
        highs: count(reader),
        safe_lows: count(reader),
        safe_highs: count(reader),
        source: target(reader.signed()),
    }
}
