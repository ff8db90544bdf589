// Edits of a field below a node: moves from cell to cell, which leave the six sums below it as they are, and one that changes a sum.
ghost use Rattle.std.specs.Prelude.{◌<◌};

use crate::field::{Cell, DrawnField, Field, cell_of, with_cell};
use test_support::draws::{draw, less};
use test_support::reader::target;

// One of a cell's six values.
#[derive(Clone, Copy)]
enum Value {
    Target,
    Low,
    High,
    SafeLow,
    SafeHigh,
    Weight,
}

// The value of a number drawn below 6.
fn value_of(drawn: u32) -> Value {
    match drawn {
        0 => Value::Target,
        1 => Value::Low,
        2 => Value::High,
        3 => Value::SafeLow,
        4 => Value::SafeHigh,
        _ => Value::Weight,
    }
}

// What may be taken off a value of a cell, or any amount drawn off its target.
fn room_below(cell: Cell, value: Value) -> u32 {
    match value {
        Value::Target => 100,
        Value::Low => cell.low.saturating_sub(cell.safe_low),
        Value::High => cell.high.saturating_sub(cell.low),
        Value::SafeLow => cell.safe_low,
        Value::SafeHigh => cell.safe_high.saturating_sub(cell.high),
        Value::Weight => cell.weight,
    }
}

// What may be added to a value of a cell, or any amount drawn to its target, its safe high and its weight.
fn room_above(cell: Cell, value: Value) -> u32 {
    match value {
        Value::Low => cell.high.saturating_sub(cell.low),
        Value::High => cell.safe_high.saturating_sub(cell.high),
        Value::SafeLow => cell.low.saturating_sub(cell.safe_low),
        Value::Target | Value::SafeHigh | Value::Weight => 100,
    }
}

// A number with an amount taken off and one added. Numbers stay far below 1000000000, so that the remainder changes none.
fn changed(number: u32, off: u32, on: u32) -> u32
    requires { on < 100 }
{
    number.saturating_sub(off) % 1000000000 + on
}

// A cell with an amount taken off one of its values, and one added to it.
fn changed_cell(cell: Cell, value: Value, off: u32, on: u32) -> Cell
    requires { (off < 100) × (on < 100) }
{
    match value {
        Value::Target => Cell {
            target: target(i64::from(cell.target) + i64::from(less(on, off))),
            ..cell
        },
        Value::Low => Cell {
            low: changed(cell.low, off, on),
            ..cell
        },
        Value::High => Cell {
            high: changed(cell.high, off, on),
            ..cell
        },
        Value::SafeLow => Cell {
            safe_low: changed(cell.safe_low, off, on),
            ..cell
        },
        Value::SafeHigh => Cell {
            safe_high: changed(cell.safe_high, off, on),
            ..cell
        },
        Value::Weight => Cell {
            weight: changed(cell.weight, off, on),
            ..cell
        },
    }
}

// The field with as much of a value as may be moved from a cell to another, at most a number.
fn moved(field: Field, from: usize, to: usize, value: Value, most: u32) -> Field
    requires { (from < 8) × (to < 8) × (most < 100) }
{
    let giver = cell_of(field, from);
    let taker = cell_of(field, to);
    let amount = most
        .min(room_below(giver, value))
        .min(room_above(taker, value));
    let next = with_cell(field, from, changed_cell(giver, value, amount, 0));
    with_cell(next, to, changed_cell(taker, value, 0, amount))
}

// Draws a move, and makes it if it is between two cells below the node.
fn one_move(now: DrawnField, below: &[bool; 8]) -> DrawnField {
    let from = draw(now.state, 8);
    let to = draw(from.state, 8);
    let value = draw(to.state, 6);
    let most = draw(value.state, 100);
    let start = from.value as usize;
    let end = to.value as usize;
    let field = if start != end && below[start] && below[end] {
        moved(now.field, start, end, value_of(value.value), most.value)
    } else {
        now.field
    };
    DrawnField {
        state: most.state,
        field,
    }
}

// Draws 24 moves of a field.
pub fn edit(state: u32, field: Field, below: &[bool; 8]) -> DrawnField {
    let mut now = DrawnField { state, field };
    for _ in 0..24 {
        now = one_move(now, below);
    }
    now
}

// The first cell below the node, of which there is one below every node.
fn first_below(below: &[bool; 8]) -> usize
    ensures { result < 8 }
{
    below.iter().position(|lies| *lies).unwrap_or(7).min(7)
}

// The field with 50 added to the target of the first cell below the node.
pub fn raised(field: Field, below: &[bool; 8]) -> Field {
    let i = first_below(below);
    with_cell(
        field,
        i,
        changed_cell(cell_of(field, i), Value::Target, 0, 50),
    )
}
