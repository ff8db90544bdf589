// The cases, from the whole numbers of the text.
ghost use Rattle.std.specs.Prelude.{◌≤◌};

use test_support::reader::Reader;

// What stands before the lists of a case.
#[derive(Clone, Copy)]
pub struct Case {
    pub targets: usize,
    pub lows: usize,
    pub highs: usize,
    pub weights: usize,
    pub masses: usize,
    pub total: i64,
}

// A list's length, from the number in the text.
fn count(x: i64) -> usize
    ensures { result ≤ 600 }
{
    usize::try_from(x).unwrap_or(0).min(600)
}

// The six numbers that stand next.
pub fn read_case(reader: &mut Reader) -> Case
    ensures { (result.targets ≤ 600) × (result.lows ≤ 600) × (result.highs ≤ 600) × (result.weights ≤ 600) × (result.masses ≤ 600) }
{
    Case {
        targets: count(reader.signed()),
        lows: count(reader.signed()),
        highs: count(reader.signed()),
        weights: count(reader.signed()),
        masses: count(reader.signed()),
        total: reader.signed(),
    }
}

// The numbers that stand next, into a list.
pub fn fill(reader: &mut Reader, xs: &mut [i64]) {
    for x in xs.iter_mut() {
        *x = reader.signed();
    }
}
