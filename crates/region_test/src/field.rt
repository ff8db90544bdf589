// A field of 8 cells as a value, drawn around kept masses, and its cells.
ghost use Rattle.std.specs.Prelude.{◌<◌};

use qlt_spec::FieldLists;
use test_support::fields::fill;

// The six lists of a field.
#[derive(Clone, Copy)]
pub struct Field {
    pub targets: [i32; 8],
    pub lows: [u32; 8],
    pub highs: [u32; 8],
    pub safe_lows: [u32; 8],
    pub safe_highs: [u32; 8],
    pub weights: [u32; 8],
}

impl Field {
    // Its lists, and a tree.
    pub fn lists<'a>(&'a self, parents: &'a [u32]) -> FieldLists<'a> {
        FieldLists {
            targets: &self.targets,
            lows: &self.lows,
            highs: &self.highs,
            safe_lows: &self.safe_lows,
            safe_highs: &self.safe_highs,
            weights: &self.weights,
            parents,
        }
    }
}

// A field, and the generator's state behind its draws.
#[derive(Clone, Copy)]
pub struct DrawnField {
    pub state: u32,
    pub field: Field,
}

// A cell of a field.
#[derive(Clone, Copy)]
pub struct Cell {
    pub target: i32,
    pub low: u32,
    pub high: u32,
    pub safe_low: u32,
    pub safe_high: u32,
    pub weight: u32,
}

// Draws a field around kept masses.
pub fn draw_field(state: u32, kept: &[u32; 8]) -> DrawnField {
    let mut targets = [0i32; 8];
    let mut lows = [0u32; 8];
    let mut highs = [0u32; 8];
    let mut safe_lows = [0u32; 8];
    let mut safe_highs = [0u32; 8];
    let mut weights = [0u32; 8];
    let next = fill(
        state,
        kept,
        &mut targets,
        &mut lows,
        &mut highs,
        &mut safe_lows,
        &mut safe_highs,
        &mut weights,
    );
    DrawnField {
        state: next,
        field: Field {
            targets,
            lows,
            highs,
            safe_lows,
            safe_highs,
            weights,
        },
    }
}

// A cell of the field.
pub fn cell_of(field: Field, i: usize) -> Cell
    requires { i < 8 }
{
    Cell {
        target: field.targets[i],
        low: field.lows[i],
        high: field.highs[i],
        safe_low: field.safe_lows[i],
        safe_high: field.safe_highs[i],
        weight: field.weights[i],
    }
}

// The field with another cell.
pub fn with_cell(field: Field, i: usize, cell: Cell) -> Field
    requires { i < 8 }
{
    let mut next = field;
    next.targets[i] = cell.target;
    next.lows[i] = cell.low;
    next.highs[i] = cell.high;
    next.safe_lows[i] = cell.safe_low;
    next.safe_highs[i] = cell.safe_high;
    next.weights[i] = cell.weight;
    next
}
