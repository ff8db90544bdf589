// What a call answered, and the scratch after it, as text.
use numbers::Refusal;
use qlt_spec::Repair;
use std::fmt;

// The answer: `done` and what the repair gives, or the refusal's number and place.
#[derive(Clone, Copy)]
pub struct Answer(pub Result<Repair, Refusal>);

impl fmt::Display for Answer {
    fn fmt<W: fmt::Write>(&self, f: &mut fmt::Formatter<W>) -> fmt::Result {
        match self.0 {
            Ok(repair) => write!(
                f,
                "done {} {} {} {}",
                repair.outcome, repair.total, repair.change, repair.shared
            ),
            Err(refusal) => write!(f, "{refusal}"),
        }
    }
}

// How many numbers of a list are x.
pub fn count(xs: &[i64], x: i64) -> usize {
    xs.iter().filter(|y| **y == x).count()
}
