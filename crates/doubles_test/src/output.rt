// Doubles as the lines have them: the bit pattern, or `nan`.
use std::fmt;

#[derive(Clone, Copy)]
pub struct Double(pub f64);

// The same for a binary32.
#[derive(Clone, Copy)]
pub struct Single(pub f32);

// The bit pattern of a double, unless it is no number.
fn bits(x: f64) -> Option<u64> {
    if x == x { Some(f64::to_bits(x)) } else { None }
}

fn single_bits(x: f32) -> Option<u32> {
    if x == x { Some(f32::to_bits(x)) } else { None }
}

impl fmt::Display for Double {
    fn fmt<W: fmt::Write>(&self, f: &mut fmt::Formatter<W>) -> fmt::Result {
        match bits(self.0) {
            Some(pattern) => write!(f, "{pattern}"),
            None => f.write_str("nan"),
        }
    }
}

impl fmt::Display for Single {
    fn fmt<W: fmt::Write>(&self, f: &mut fmt::Formatter<W>) -> fmt::Result {
        match single_bits(self.0) {
            Some(pattern) => write!(f, "{pattern}"),
            None => f.write_str("nan"),
        }
    }
}
