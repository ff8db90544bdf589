// What a round draws: a tree, a field, a source, a node, and the field edited below that node.
ghost use Rattle.std.specs.Prelude.{◌<◌, ◌≤◌};

use crate::below::fill_below;
use crate::edits::{edit, raised};
use crate::field::{Field, draw_field};
use test_support::draws::{Drawn, draw, less};
use test_support::fields::{fill_parents, nodes};

// The generator's state behind the draws, the tree's kind and parents, the source, the node, the cells below it, the field, the edited
// one, and the one with a changed sum.
#[derive(Clone, Copy)]
pub struct Round {
    pub state: u32,
    pub kind: u32,
    pub parents: [u32; 15],
    pub source: i32,
    pub node: u32,
    pub below: [bool; 8],
    pub field: Field,
    pub edited: Field,
    pub changed: Field,
}

// The source of a round: the one drawn, or by its reach one that goes too far.
fn given_source(drawn: u32, reach: u32) -> i32
    requires { drawn < 2000000000 }
{
    match reach {
        0 => -2147483648,
        1 => 2000000,
        _ => less(drawn, 1500),
    }
}

// The first node that may be drawn: a cell, or, in three of four rounds with inner nodes below the root, the first of these.
fn first_node(kind: u32, any: u32) -> u32
    ensures { result ≤ 8 }
{
    if kind == 0 || any == 0 { 0 } else { 8 }
}

// Draws a node of the tree, from the first that may be drawn on.
fn draw_node(state: u32, kind: u32) -> Drawn {
    let any = draw(state, 4);
    let first = first_node(kind, any.value);
    let node = draw(any.state, nodes(kind) as u32 - first);
    Drawn {
        state: node.state,
        value: first + node.value,
    }
}

// Draws a round around kept masses.
pub fn draw_round(state: u32, kept: &[u32; 8]) -> Round {
    let kind = draw(state, 3);
    let mut parents = [0u32; 15];
    fill_parents(kind.value, false, &mut parents);
    let drawn = draw_field(kind.state, kept);
    let source = draw(drawn.state, 3001);
    let reach = draw(source.state, 10);
    let node = draw_node(reach.state, kind.value);
    let mut below = [false; 8];
    fill_below(&parents, node.value, &mut below);
    let field = drawn.field;
    let moved = edit(node.state, field, &below);
    let edited = moved.field;
    Round {
        state: moved.state,
        kind: kind.value,
        parents,
        source: given_source(source.value, reach.value),
        node: node.value,
        below,
        field,
        edited,
        changed: raised(field, &below),
    }
}
