// Fields for steps: cells drawn around kept masses, and three trees over 8 cells.
ghost use Rattle.std.specs.Prelude.{◌<◌, ◌≤◌};

use crate::draws::{draw, less};

// What is drawn for one cell, and the generator's state behind it.
#[derive(Clone, Copy)]
struct Cell {
    state: u32,
    target: i32,
    low: u32,
    high: u32,
    safe_low: u32,
    safe_high: u32,
    weight: u32,
}

// Draws a cell around a kept mass.
fn draw_cell(state: u32, kept: u32) -> Cell {
    let mass = kept % 1000000000;
    let target = draw(state, 201);
    let below = draw(target.state, 150);
    let over = draw(below.state, 150);
    let safe_below = draw(over.state, 300);
    let safe_over = draw(safe_below.state, 300);
    let weight = draw(safe_over.state, 4);
    let low = mass.saturating_sub(below.value);
    let high = mass + over.value;
    Cell {
        state: weight.state,
        target: less(mass + target.value, 100),
        low,
        high,
        safe_low: low.saturating_sub(safe_below.value),
        safe_high: high + safe_over.value,
        weight: weight.value,
    }
}

// Draws the cells around the kept masses. Returns the generator's state behind them.
pub fn fill(
    state: u32,
    kept: &[u32; 8],
    targets: &mut [i32; 8],
    lows: &mut [u32; 8],
    highs: &mut [u32; 8],
    safe_lows: &mut [u32; 8],
    safe_highs: &mut [u32; 8],
    weights: &mut [u32; 8],
) -> u32 {
    let mut next = state;
    for (i, mass) in kept.iter().enumerate() {
        let cell = draw_cell(next, *mass);
        targets[i] = cell.target;
        lows[i] = cell.low;
        highs[i] = cell.high;
        safe_lows[i] = cell.safe_low;
        safe_highs[i] = cell.safe_high;
        weights[i] = cell.weight;
        next = cell.state;
    }
    next
}

// Crosses the bounds of cell 3, if they are to be crossed and differ.
pub fn cross(crossed: bool, lows: &mut [u32; 8], highs: &mut [u32; 8]) {
    let low = lows[3];
    let high = highs[3];
    if crossed && low < high {
        lows[3] = high;
        highs[3] = low;
    }
}

// The number of nodes of a tree: the flat one has an inner node, the others have seven.
pub fn nodes(kind: u32) -> usize
    ensures { (8 < result) × (result ≤ 15) }
{
    if kind == 0 { 9 } else { 15 }
}

// A node's parent in the balanced tree.
fn balanced(v: u32) -> u32 {
    if v < 14 { v / 2 + 8 } else { 14 }
}

// A node's parent in the caterpillar.
fn caterpillar(v: u32) -> u32 {
    if v < 2 {
        return 8;
    }
    if v < 8 {
        return v + 7;
    }
    if v < 14 { v + 1 } else { 14 }
}

// A node's parent in the tree of a kind: flat, balanced or a caterpillar; in a broken one the first node is its own.
fn parent(kind: u32, broken: bool, v: u32) -> u32 {
    if broken && v == 0 {
        return 0;
    }
    if kind == 0 {
        return 8;
    }
    if kind == 1 {
        balanced(v)
    } else {
        caterpillar(v)
    }
}

// Writes the parents of the tree of a kind.
pub fn fill_parents(kind: u32, broken: bool, parents: &mut [u32; 15]) {
    for (v, above) in parents.iter_mut().enumerate() {
        *above = parent(kind, broken, v as u32);
    }
}
