// The two steps of a round: of the first kept field by the field, and of the second by the edited one.
use crate::counts::{Calls, Told, count_calls};
use crate::output::Answered;
use crate::round::Round;
use kept_spec::{Balance, Stepped};
use numbers::Refusal;
use qlt_spec::FieldLists;
use std::fmt;
use std::fmt::Write;
use test_support::books::start;
use test_support::fields::nodes;
use test_support::output::{Masses, Output};

// A kept field: its masses, their balance, and its book with the length that is used.
#[derive(Clone, Copy)]
pub struct Standing {
    pub masses: [u32; 8],
    pub balance: Balance,
    book: [u8; 32768],
    length: usize,
}

// What is compared of a step's answer.
fn told(answer: Result<Stepped, Refusal>) -> Told {
    answer.map(|stepped| (stepped.repair.outcome, stepped.repair.total))
}

impl Standing {
    // Opens 8 masses of 1000 at scale 0, and starts their book.
    pub fn open() -> Standing {
        let mut standing = Standing {
            masses: [1000; 8],
            balance: Balance { total: 0, scale: 0 },
            book: [0; 32768],
            length: 0,
        };
        if let Ok(balance) = kept::open(&standing.masses, 0) {
            standing.balance = balance;
            standing.length = start(balance.total, &mut standing.book);
        }
        standing
    }

    // Steps it by a field, with a scratch of its own.
    fn step(&mut self, source: i32, field: &FieldLists) -> Result<Stepped, Refusal> {
        let mut scratch = [0i64; 60];
        let stepped = kept::step(
            self.balance,
            &mut self.masses,
            source,
            0,
            field,
            &mut scratch,
            &mut self.book,
            self.length,
        )?;
        self.balance = stepped.balance;
        self.length = stepped.length;
        Ok(stepped)
    }
}

// Makes the steps, and prints their line.
pub fn step_both(
    round: &Round,
    first: &mut Standing,
    second: &mut Standing,
    calls: &mut Calls,
) -> fmt::Result {
    let parents = &round.parents[..nodes(round.kind)];
    let answer = first.step(round.source, &round.field.lists(parents));
    let edited = second.step(round.source, &round.edited.lists(parents));
    count_calls(
        told(answer),
        told(edited),
        &first.masses,
        &second.masses,
        &round.below,
        calls,
    );
    writeln!(
        Output,
        "step {} edited {} kept{} edited{}",
        Answered(answer.map(|stepped| stepped.repair)),
        Answered(edited.map(|stepped| stepped.repair)),
        Masses(&first.masses),
        Masses(&second.masses)
    )
}
