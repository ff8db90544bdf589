// The cases, from the whole numbers of the text.
ghost use Rattle.std.specs.Prelude.{◌≤◌};

use test_support::reader::{Reader, word};

// What stands before the lists of a case: the lengths of the lists of targets, lows, highs, safe lows, safe highs, weights, parents and masses and
// of the scratch, and the total.
#[derive(Clone, Copy)]
pub struct Case {
    pub targets: usize,
    pub lows: usize,
    pub highs: usize,
    pub safe_lows: usize,
    pub safe_highs: usize,
    pub weights: usize,
    pub parents: usize,
    pub masses: usize,
    pub scratch: usize,
    pub total: u32,
}

// A list's length, from the number in the text.
fn count(x: i64, most: usize) -> usize
    ensures { result ≤ most }
{
    usize::try_from(x).unwrap_or(0).min(most)
}

// The ten numbers that stand next.
pub fn read_case(reader: &mut Reader) -> Case
    ensures cells { (result.targets ≤ 600) × (result.lows ≤ 600) × (result.highs ≤ 600) × (result.safe_lows ≤ 600) × (result.safe_highs ≤ 600) ×
        (result.weights ≤ 600) × (result.masses ≤ 600) }
    ensures others { (result.parents ≤ 1100) × (result.scratch ≤ 6600) }
{
    Case {
        targets: count(reader.signed(), 600),
        lows: count(reader.signed(), 600),
        highs: count(reader.signed(), 600),
        safe_lows: count(reader.signed(), 600),
        safe_highs: count(reader.signed(), 600),
        weights: count(reader.signed(), 600),
        parents: count(reader.signed(), 1100),
        masses: count(reader.signed(), 600),
        scratch: count(reader.signed(), 6600),
        total: word(reader.signed()),
    }
}
