// Whole numbers read from text, one after another: digits, with spaces and line ends between numbers, and before a signed number a `-` or none. A
// number beyond its range, unsigned or signed of 64 bits, is read as the end of the range. Past the text, and where any other byte stands, a number
// is 0 and takes no byte.
ghost use Rattle.std.specs.Prelude.{◌≡◌, ◌-◌, ◌<◌, ◌≤◌, ◌↔◌, pos, ◌≤ℤ◌, ◌<ℤ◌, min, length, IsTrue};
ghost use Rattle.test_support.specs.Reader.{Behind};

// What is left of a text, and how much of it was left when the case began that is being read: no less than is left.
#[derive(Clone, Copy)]
pub struct Reader<'a> {
    rest: &'a [u8],
    at_case: usize,
    ghost within: { length rest.now ≤ at_case },
}

// How many bytes at the front of a text stand between numbers.
fn separators(text: &[u8]) -> usize
    ensures { result ≤ length text.now }
{
    text.iter()
        .take_while(|b| **b == b' ' || **b == b'\n')
        .count()
}

// How many bytes at the front of a text are digits.
fn digits(text: &[u8]) -> usize
    ensures { result ≤ length text.now }
{
    text.iter().take_while(|b| b.is_ascii_digit()).count()
}

// What digits stand for, or 2 ^ 64 - 1 if that is less.
fn value_of(digits: &[u8]) -> u64 {
    let mut value: u64 = 0;
    for b in digits {
        value = value
            .saturating_mul(10)
            .saturating_add(u64::from(b.saturating_sub(b'0')));
    }
    value
}

impl<'a> Reader<'a> {
    // Reads a text from its first byte that is no separator.
    pub fn new(text: &'a [u8]) -> Reader<'a>
        ensures { Behind text.now result.rest.now }
    {
        Reader {
            rest: &text[separators(text)..],
            at_case: usize::MAX,
        }
    }

    // Whether a case is left to read. A case that took no byte of the text loses one here, so that there are no more cases than bytes.
    pub fn begin_case(&mut self) -> bool
        ensures behind { Behind self.old.rest.now self.new.rest.now }
        ensures at_case { self.new.at_case ≡ length self.new.rest.now }
        ensures later { length self.new.rest.now ≡ min (length self.old.rest.now) (self.old.at_case - 1) }
        ensures left { IsTrue result ↔ 0 < length self.new.rest.now }
    {
        if self.rest.len() == self.at_case && !self.rest.is_empty() {
            self.rest = &self.rest[1..];
        }
        self.at_case = self.rest.len();
        !self.rest.is_empty()
    }

    // Goes past separators.
    pub fn skip(&mut self)
        ensures behind { Behind self.old.rest.now self.new.rest.now }
        ensures same_case { self.new.at_case ≡ self.old.at_case }
    {
        self.rest = &self.rest[separators(self.rest)..];
    }

    // The number whose digits stand next.
    fn number(&mut self) -> u64
        ensures behind { Behind self.old.rest.now self.new.rest.now }
        ensures same_case { self.new.at_case ≡ self.old.at_case }
    {
        let n = digits(self.rest);
        let value = value_of(&self.rest[..n]);
        self.rest = &self.rest[n..];
        value
    }

    // The unsigned number that stands next.
    pub fn unsigned(&mut self) -> u64
        ensures behind { Behind self.old.rest.now self.new.rest.now }
        ensures same_case { self.new.at_case ≡ self.old.at_case }
    {
        self.skip();
        self.number()
    }

    // The signed number that stands next.
    pub fn signed(&mut self) -> i64
        ensures behind { Behind self.old.rest.now self.new.rest.now }
        ensures same_case { self.new.at_case ≡ self.old.at_case }
    {
        self.skip();
        if self.rest.first() != Some(&b'-') {
            return i64::try_from(self.number()).unwrap_or(i64::MAX);
        }
        self.rest = &self.rest[1..];
        match i64::try_from(self.number()) {
            Ok(size) => -size,
            Err(_) => i64::MIN,
        }
    }

    // Fills a list that is given in runs: a count and a number that stands that many times, until the list is full. A count below 1 is taken as 1, and
    // the last run may have more than the list takes. `kept` says what a number becomes in the list.
    pub fn fill_runs<T: Copy, F: Fn(i64) -> T>(&mut self, xs: &mut [T], kept: F)
        requires { F.IsAlwaysCallable kept }
        ensures behind { Behind self.old.rest.now self.new.rest.now }
        ensures same_case { self.new.at_case ≡ self.old.at_case }
    {
        let mut left: u64 = 0;
        let mut value: i64 = 0;
        for x in xs.iter_mut() {
            if left == 0 {
                left = u64::try_from(self.signed()).unwrap_or(0).max(1);
                value = self.signed();
            }
            left -= 1;
            *x = kept(value);
        }
    }
}

// A number as one of 32 bits, signed or not, or the end of that range that is nearer.
pub fn target(x: i64) -> i32
    ensures within { i32.MIN ≤ℤ x → x ≤ℤ i32.MAX → result ≡ x }
    ensures below { x <ℤ i32.MIN → result ≡ i32.MIN }
    ensures beyond { i32.MAX <ℤ x → result ≡ i32.MAX }
{
    i32::try_from(x).unwrap_or(if x < 0 { i32::MIN } else { i32::MAX })
}

pub fn word(x: i64) -> u32
    ensures within { pos 0 ≤ℤ x → x ≤ℤ pos u32.MAX → pos result ≡ x }
    ensures below { x <ℤ pos 0 → result ≡ 0 }
    ensures beyond { pos u32.MAX <ℤ x → result ≡ u32.MAX }
{
    u32::try_from(x).unwrap_or(if x < 0 { 0 } else { u32::MAX })
}
