// The lines of text.
use crate::Run;
use kept_spec::Balance;
use numbers::Refusal;
use std::fmt;
use std::fmt::Write;
use test_support::output::{Output, print_check};

// What Open answered: the balance, or the number that it refused with.
pub fn show_opening(answer: Result<Balance, Refusal>) -> fmt::Result {
    match answer {
        Ok(balance) => writeln!(Output, "open {} scale {}", balance.total, balance.scale),
        Err(refusal) => writeln!(Output, "open refused {}", refusal.number),
    }
}

// The line of a run: the calls, those accepted and refused, those refused with 17 among them, the total and scale standing, the sum and
// check number of the masses, and what was shared out.
pub fn show(calls: u64, run: Run, kept: &[u32; 8]) -> fmt::Result {
    write!(
        Output,
        "calls {calls} accepted {} refused {} with-17 {} total {} scale {}",
        run.accepted, run.refused, run.refused_with_17, run.balance.total, run.balance.scale
    )?;
    print_check(kept);
    writeln!(Output, " shared {}", run.shared)
}
