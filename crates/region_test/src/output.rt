// What calls answered, as text.
use numbers::Refusal;
use qlt_spec::Repair;
use std::fmt;
use test_support::output::Masses;

// What a repair gives: outcome, total, change and the sum shared out.
#[derive(Clone, Copy)]
struct Given(Repair);

impl fmt::Display for Given {
    fn fmt<W: fmt::Write>(&self, f: &mut fmt::Formatter<W>) -> fmt::Result {
        let repair = self.0;
        write!(
            f,
            "{} {} {} {}",
            repair.outcome, repair.total, repair.change, repair.shared
        )
    }
}

// What Reconstruct answered, with the masses if it was accepted.
#[derive(Clone, Copy)]
pub struct Repaired<'a> {
    pub answer: Result<Repair, Refusal>,
    pub masses: Masses<'a>,
}

impl<'a> fmt::Display for Repaired<'a> {
    fn fmt<W: fmt::Write>(&self, f: &mut fmt::Formatter<W>) -> fmt::Result {
        match self.answer {
            Ok(repair) => write!(f, "done {}{}", Given(repair), self.masses),
            Err(refusal) => write!(f, "{refusal}"),
        }
    }
}

// What a step answered.
#[derive(Clone, Copy)]
pub struct Answered(pub Result<Repair, Refusal>);

impl fmt::Display for Answered {
    fn fmt<W: fmt::Write>(&self, f: &mut fmt::Formatter<W>) -> fmt::Result {
        match self.0 {
            Ok(repair) => write!(f, "accepted {}", Given(repair)),
            Err(refusal) => write!(f, "{refusal}"),
        }
    }
}
