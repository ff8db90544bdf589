// The calls: a member and a kind drawn, an opening, a registration, a step or a turn made, and what it told counted.
use crate::Run;
use crate::books::{keep_length, length_of, place, start};
use crate::faults::{
    given_cells, given_nodes, given_number, given_scale, given_scratch, given_source,
    opening_fault, spoil,
};
use crate::masses::{draw_masses, load, store};
use crate::waits::{idle, served};
use family::{open_member, step_member};
use family_spec::{Family, FamilyAnswer, Served};
use kept_spec::Stepped;
use numbers::Refusal;
use qlt_spec::{FieldLists, Repair};
use test_support::draws::{draw, more};
use test_support::fields::{cross, fill, fill_parents, nodes};
use turns::{next_member, register, turn, waiting_count};

// The check number with one value more.
fn taken(told: u64, value: u64) -> u64 {
    (told % 1000000007 * 31 + value % 1000000000000) % 1000000007
}

// The check number with every member of a family.
fn taken_members(told: u64, family: Family) -> u64 {
    let mut now = told;
    for member in family.members.iter() {
        now = taken(
            taken(now, u64::from(member.opened)),
            u64::from(member.total),
        );
    }
    now
}

// The next in turn, or 8 for nobody.
fn next_number(family: Family) -> u32 {
    next_member(family).unwrap_or(8)
}

// The check number with a family: its members, who waits, where the search begins, the next in turn and the number waiting.
fn taken_family(told: u64, family: Family) -> u64 {
    let members = taken_members(told, family);
    let waits = taken(
        taken(members, u64::from(family.waiting)),
        u64::from(family.from),
    );
    taken(
        taken(waits, u64::from(next_number(family))),
        u64::from(waiting_count(family)),
    )
}

// The run after an accepted call that told this and shared this out.
fn accepted(run: Run, state: u32, family: Family, told: u64, shared: u64) -> Run {
    Run {
        state,
        family,
        accepted: more(run.accepted),
        told: taken_family(told, family),
        shared: run.shared % 1000000000000 + shared % 1000000000000,
        ..run
    }
}

// The run after a refused call that told this and its refusal, which is counted by its number.
fn refused(
    run: Run,
    state: u32,
    family: Family,
    told: u64,
    refusal: Refusal,
    counts: &mut [u32; 21],
) -> Run {
    let number = refusal.number as usize;
    if number < 21 {
        counts[number] = more(counts[number]);
    }
    let with_refusal = taken(
        taken(told, u64::from(refusal.number)),
        u64::from(refusal.place),
    );
    Run {
        state,
        family,
        refused: more(run.refused),
        told: taken_family(with_refusal, family),
        ..run
    }
}

// The run after an idle turn.
fn idled(run: Run, state: u32, family: Family) -> Run {
    Run {
        state,
        family,
        told: taken_family(taken(run.told, 8), family),
        ..run
    }
}

// The masses by the fault of an opening.
fn spoil_masses(fault: u32, masses: &mut [u32; 8]) {
    if fault == 4 {
        masses.fill(300000000);
    }
    if fault == 5 {
        masses.fill(30000);
    }
}

// Draws masses, and opens the member with the first of them; its book opens with their total.
fn open_call(
    run: Run,
    state: u32,
    member: u32,
    kept: &mut [u32; 64],
    books: &mut [u8; 262144],
    lengths: &mut [usize; 8],
    counts: &mut [u32; 21],
) -> Run {
    let mut masses = [0u32; 8];
    let next = draw_masses(state, &mut masses);
    let drawn = draw(next, 60);
    let fault = opening_fault(drawn.value);
    spoil_masses(fault, &mut masses);
    let opened = open_member(
        run.family,
        given_number(member, fault == 0),
        &masses[..given_cells(fault == 1)],
        given_scale(fault == 2, fault == 3),
    );
    match opened.answer {
        Ok(balance) => {
            store(&masses, member, kept);
            start(balance.total, member, books, lengths);
            let told = taken(
                taken(run.told, u64::from(balance.total)),
                u64::from(balance.scale),
            );
            accepted(run, drawn.state, opened.family, told, 0)
        }
        Err(refusal) => refused(run, drawn.state, opened.family, run.told, refusal, counts),
    }
}

// Registers the member, or a number that no member has.
fn register_call(run: Run, state: u32, member: u32, counts: &mut [u32; 21]) -> Run {
    let drawn = draw(state, 8);
    let given = given_number(member, drawn.value == 0);
    let registered = register(run.family, given);
    match registered.answer {
        Ok(()) => {
            let told = taken(run.told, u64::from(given));
            accepted(run, drawn.state, registered.family, told, 0)
        }
        Err(refusal) => refused(
            run,
            drawn.state,
            registered.family,
            run.told,
            refusal,
            counts,
        ),
    }
}

// What an accepted step told.
fn taken_repair(told: u64, repair: Repair) -> u64 {
    let first = taken(
        taken(told, u64::from(repair.outcome)),
        u64::from(repair.total),
    );
    taken(taken(first, repair.change), repair.shared)
}

// Steps a member, or the next in turn; what a step by itself tells is given as a turn that served its member.
fn step_by(
    family: Family,
    by_turn: bool,
    number: u32,
    masses: &mut [u32; 8],
    source: i32,
    scale: u32,
    field: &FieldLists,
    scratch: &mut [i64],
    book: &mut [u8],
    told: usize,
) -> FamilyAnswer<Option<Served>> {
    if by_turn {
        return turn(family, masses, source, scale, field, scratch, book, told);
    }
    let step = step_member(
        family, number, masses, source, scale, field, scratch, book, told,
    );
    FamilyAnswer {
        family: step.family,
        answer: Some(Served {
            member: number,
            stepped: step.answer,
        }),
    }
}

// The member whose masses and book are lent: the one drawn, or in a turn the next, if there is one.
fn lent_member(family: Family, member: u32, by_turn: bool) -> u32 {
    if by_turn {
        next_member(family).unwrap_or(member)
    } else {
        member
    }
}

// The run after a step that told this; if it was accepted, its masses and the length of its book are stored.
fn stepped_run(
    run: Run,
    state: u32,
    family: Family,
    told: u64,
    answer: Result<Stepped, Refusal>,
    masses: &[u32; 8],
    lent: u32,
    kept: &mut [u32; 64],
    lengths: &mut [usize; 8],
    counts: &mut [u32; 21],
) -> Run {
    match answer {
        Ok(stepped) => {
            store(masses, lent, kept);
            keep_length(stepped.length, lent, lengths);
            accepted(
                run,
                state,
                family,
                taken_repair(told, stepped.repair),
                stepped.repair.shared,
            )
        }
        Err(refusal) => refused(run, state, family, told, refusal, counts),
    }
}

// Counts a turn that served a member; a step by itself is none.
fn count_turn(by_turn: bool, turns: &mut [u32; 11], waiting: u8, member: u32) {
    if by_turn {
        served(turns, waiting, member);
    }
}

// Draws a field, and steps the member by it, or in a turn the next one.
fn step_call(
    run: Run,
    state: u32,
    member: u32,
    by_turn: bool,
    kept: &mut [u32; 64],
    books: &mut [u8; 262144],
    lengths: &mut [usize; 8],
    turns: &mut [u32; 11],
    counts: &mut [u32; 21],
) -> Run {
    let kind = draw(state, 3);
    let lent = lent_member(run.family, member, by_turn);
    let mut masses = [0u32; 8];
    load(kept, lent, &mut masses);
    let mut targets = [0i32; 8];
    let mut lows = [0u32; 8];
    let mut highs = [0u32; 8];
    let mut safe_lows = [0u32; 8];
    let mut safe_highs = [0u32; 8];
    let mut weights = [0u32; 8];
    let next = fill(
        kind.state,
        &masses,
        &mut targets,
        &mut lows,
        &mut highs,
        &mut safe_lows,
        &mut safe_highs,
        &mut weights,
    );
    let source = draw(next, 3001);
    let drawn = draw(source.state, 32);
    let fault = drawn.value;
    cross(fault == 8, &mut lows, &mut highs);
    spoil(fault, &mut safe_highs, &mut weights, &mut masses);
    let mut parents = [0u32; 15];
    fill_parents(kind.value, fault == 7, &mut parents);
    let m = nodes(kind.value);
    let mut scratch = [0i64; 60];
    let at = place(lent);
    let turned = step_by(
        run.family,
        by_turn,
        given_number(member, fault == 1),
        &mut masses,
        given_source(source.value, fault),
        given_scale(fault == 5, fault == 6),
        &FieldLists {
            targets: &targets[..given_cells(fault == 2)],
            lows: &lows,
            highs: &highs,
            safe_lows: &safe_lows,
            safe_highs: &safe_highs,
            weights: &weights,
            parents: &parents[..given_nodes(m, fault)],
        },
        &mut scratch[..given_scratch(m, fault)],
        &mut books[at..at + 32768],
        length_of(lengths, lent),
    );
    match turned.answer {
        None => {
            idle(turns);
            idled(run, drawn.state, turned.family)
        }
        Some(Served { member, stepped }) => {
            count_turn(by_turn, turns, run.family.waiting, member);
            stepped_run(
                run,
                drawn.state,
                turned.family,
                taken(run.told, u64::from(member)),
                stepped,
                &masses,
                lent,
                kept,
                lengths,
                counts,
            )
        }
    }
}

// Makes an opening, a registration or a step of a member, or a turn.
pub fn one_call(
    run: Run,
    kept: &mut [u32; 64],
    books: &mut [u8; 262144],
    lengths: &mut [usize; 8],
    turns: &mut [u32; 11],
    counts: &mut [u32; 21],
) -> Run {
    let member = draw(run.state, 8);
    let kind = draw(member.state, 16);
    if kind.value < 2 {
        return open_call(run, kind.state, member.value, kept, books, lengths, counts);
    }
    if kind.value < 6 {
        return register_call(run, kind.state, member.value, counts);
    }
    step_call(
        run,
        kind.state,
        member.value,
        kind.value < 10,
        kept,
        books,
        lengths,
        turns,
        counts,
    )
}
