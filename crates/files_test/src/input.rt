// The cases, from the whole numbers of the text.
ghost use Rattle.std.specs.Prelude.{◌≤◌, ◌<◌};

use blocks::words::word_signed;
use qlt_spec::Repair;
use test_support::reader::Reader;

// The lengths of the lists of a field.
#[derive(Clone, Copy)]
pub struct Lengths {
    pub targets: usize,
    pub lows: usize,
    pub highs: usize,
    pub safe_lows: usize,
    pub safe_highs: usize,
    pub weights: usize,
    pub parents: usize,
    ghost few: { (targets ≤ 520) × (lows ≤ 520) × (highs ≤ 520) × (safe_lows ≤ 520) × (safe_highs ≤ 520) × (weights ≤ 520) × (parents ≤ 1030) },
}

// What gives a list: the first number, the step from each to the next, and the modulus.
#[derive(Clone, Copy)]
pub struct Rule {
    pub first: u64,
    pub step: u32,
    pub modulus: u64,
    ghost some: { 0 < modulus },
    ghost most: { modulus ≤ 4294967296 },
}

// What Write an answer is given in a case. Of the masses and the buffer it has the lengths.
#[derive(Clone, Copy)]
pub struct WriteCase {
    pub cells: usize,
    pub repair: Repair,
    pub masses: usize,
    pub buffer: usize,
    pub rule: Rule,
    ghost few: { (masses ≤ 600) × (buffer ≤ 4096) },
}

// The same for Write a field.
#[derive(Clone, Copy)]
pub struct FieldCase {
    pub cells: usize,
    pub nodes: usize,
    pub total: u32,
    pub lengths: Lengths,
    pub buffer: usize,
    pub rule: Rule,
    ghost few: { buffer ≤ 20000 },
}

// The lists of a field, each with room for the longest that a case names.
#[derive(Clone, Copy)]
pub struct Space {
    pub targets: [i32; 520],
    pub lows: [u32; 520],
    pub highs: [u32; 520],
    pub safe_lows: [u32; 520],
    pub safe_highs: [u32; 520],
    pub weights: [u32; 520],
    pub parents: [u32; 1030],
}

// A number as a word, or the largest word if it is more.
fn word(x: u64) -> u32 {
    u32::try_from(x).unwrap_or(u32::MAX)
}

// The length that stands next, which counts as `most` if it is more.
pub fn read_length(reader: &mut Reader, most: usize) -> usize
    ensures { result ≤ most }
{
    (reader.unsigned() as usize).min(most)
}

// The seven lengths that stand next.
pub fn read_lengths(reader: &mut Reader) -> Lengths {
    Lengths {
        targets: read_length(reader, 520),
        lows: read_length(reader, 520),
        highs: read_length(reader, 520),
        safe_lows: read_length(reader, 520),
        safe_highs: read_length(reader, 520),
        weights: read_length(reader, 520),
        parents: read_length(reader, 1030),
    }
}

// The rule of the three numbers that stand next.
fn read_rule(reader: &mut Reader) -> Rule {
    Rule {
        first: reader.unsigned(),
        step: word(reader.unsigned()),
        modulus: reader.unsigned().max(1).min(4294967296),
    }
}

// The outcome, the total, the change and the sum shared out that stand next.
fn read_repair(reader: &mut Reader) -> Repair {
    Repair {
        outcome: word(reader.unsigned()),
        total: word(reader.unsigned()),
        change: reader.unsigned(),
        shared: reader.unsigned(),
    }
}

// The ten numbers that stand next.
pub fn read_write(reader: &mut Reader) -> WriteCase {
    WriteCase {
        cells: reader.unsigned() as usize,
        repair: read_repair(reader),
        masses: read_length(reader, 600),
        buffer: read_length(reader, 4096),
        rule: read_rule(reader),
    }
}

// The fourteen numbers that stand next.
pub fn read_field_case(reader: &mut Reader) -> FieldCase {
    FieldCase {
        cells: reader.unsigned() as usize,
        nodes: reader.unsigned() as usize,
        total: word(reader.unsigned()),
        lengths: read_lengths(reader),
        buffer: read_length(reader, 20000),
        rule: read_rule(reader),
    }
}

impl Rule {
    // Fills a list by the rule with first + j. `kept` says what a number becomes in the list.
    pub fn fill<T: Copy, F: Fn(u32) -> T>(self, j: u32, xs: &mut [T], kept: F)
        requires { F.IsAlwaysCallable kept }
    {
        let mut number = ((self.first % self.modulus + u64::from(j)) % self.modulus) as u32;
        for x in xs.iter_mut() {
            *x = kept(number);
            number = (u64::from(number).saturating_add(u64::from(self.step)) % self.modulus) as u32;
        }
    }
}

impl Space {
    // Lists of which each entry is a number.
    pub fn new(target: i32, entry: u32) -> Space {
        Space {
            targets: [target; 520],
            lows: [entry; 520],
            highs: [entry; 520],
            safe_lows: [entry; 520],
            safe_highs: [entry; 520],
            weights: [entry; 520],
            parents: [entry; 1030],
        }
    }

    // Fills the lists by a rule, each with a first number of its own. A target is what its number stands for in two's complement.
    pub fn fill(&mut self, rule: Rule) {
        rule.fill(0, &mut self.targets, word_signed);
        rule.fill(1, &mut self.lows, |x| x);
        rule.fill(2, &mut self.highs, |x| x);
        rule.fill(3, &mut self.safe_lows, |x| x);
        rule.fill(4, &mut self.safe_highs, |x| x);
        rule.fill(5, &mut self.weights, |x| x);
        rule.fill(6, &mut self.parents, |x| x);
    }
}
