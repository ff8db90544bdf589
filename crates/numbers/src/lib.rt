// The vocabulary that every crate uses: sums over indices, lists by index, signed numbers by their natural parts, the rounded
// quotient, checks in their order (specs/, with their laws in proofs/), and leaf functions over them.
// The functions are for the crates above; none of them is an operation. Relies on no other crate.
#![tactic(auto)]

ghost use Rattle.std.specs.Prelude.{◌≡◌, ◌<◌, ◌^◌};
ghost use Rattle.numbers.specs.Checks.{refusal};

use std::fmt;

pub mod arith;
pub mod checks;
pub mod lists;

// Why a call is refused: 01's number of the check that failed, and the place. The number is what files, texts and the calls from C give.
#[derive(Clone, Copy, Debug, PartialEq, Eq)]
pub struct Refusal {
    pub number: u32,
    pub place: u32,
}

impl Refusal {
    // The refusal at an index.
    pub fn at(number: u32, index: usize) -> Refusal
        requires { index < 2 ^ 32 }
        ensures { result ≡ refusal number index }
    {
        Refusal {
            number,
            place: index as u32,
        }
    }
}

// As every program prints it.
impl fmt::Display for Refusal {
    fn fmt<W: fmt::Write>(&self, f: &mut fmt::Formatter<W>) -> fmt::Result {
        write!(f, "refused {} {}", self.number, self.place)
    }
}
