// One split of the nodes along a chain: the walk that clips, the walks that share out, and the whole.
ghost use Rattle.std.specs.Prelude.{◌≡◌, ◌<◌, ◌^◌};
ghost use Rattle.caas_spec.specs.Split.{clip, deficit, room, moved};
ghost use Rattle.scratch_spec.specs.Columns.{MASS, LOW, HIGH, col, num, InRow};
ghost use Rattle.scratch_spec.specs.Walks.{group_in, room_in, either, Clipping, Clipped, Sharing, Shared, Splitting, SplitDone, SplitWatched};

use crate::columns::{get_above, put};
use numbers::arith::{difference, quotient};
use scratch_spec::Column;

// Two sums of one walk.
#[derive(Clone, Copy)]
pub struct Sums {
    pub main: u64,
    pub side: u64,
}

// The target of node u, clipped into its bounds. A target below 0 is read as 0: no low is below 0, so both clip to the same value.
fn clip_at(s: &[i64], u: usize) -> u64
    requires { InRow MASS s.now u }
    ensures { (result ≡ clip (num LOW s.now u) (num HIGH s.now u) (col MASS s.now u)) × (result < 2 ^ 63) }
{
    let target = get_above(s, Column::Mass, u);
    let low = get_above(s, Column::Low, u);
    let high = get_above(s, Column::High, u);
    low.max(target.min(high))
}

// Clips the targets on v's chain; gives the sum of the clipped values and that of the weights.
fn clip_walk(s: &mut [i64], m: usize, v: usize) -> Sums
    requires { Clipping m v s.old }
    ensures { Clipped m v s.old s.new result.main result.side }
{
    let mut u = get_above(s, Column::First, v) as usize;
    let mut sum: u64 = 0;
    let mut all: u64 = 0;
    while u < m {
        let x = clip_at(s, u);
        let w = get_above(s, Column::Weight, u);
        let next = get_above(s, Column::Next, u) as usize;
        put(s, Column::Mass, u, x);
        sum += x;
        all += w;
        u = next;
    }
    Sums {
        main: sum,
        side: all,
    }
}

// How far x can still go within its bounds.
fn room_of(down: bool, low: u64, high: u64, x: u64) -> u64
    ensures { result ≡ room down low high x }
{
    if down {
        x.saturating_sub(low)
    } else {
        high.saturating_sub(x)
    }
}

fn moved_by(down: bool, x: u64, share: u64) -> u64
    requires { (x < 2 ^ 63) × (share < 2 ^ 63) }
    ensures { result ≡ moved down x share }
{
    if down {
        x.saturating_sub(share)
    } else {
        x + share
    }
}

fn choose(first: bool, a: u64, b: u64) -> u64
    ensures { result ≡ either first a b }
{
    if first { a } else { b }
}

fn room_at(s: &[i64], down: bool, u: usize) -> u64
    requires { InRow MASS s.now u }
    ensures { (result ≡ room_in down s.now u) × (result < 2 ^ 63) × (moved down (num MASS s.now u) result < 2 ^ 63) }
{
    let x = get_above(s, Column::Mass, u);
    let low = get_above(s, Column::Low, u);
    let high = get_above(s, Column::High, u);
    room_of(down, low, high, x)
}

// Shares d out along v's chain, by what is left to each or by weights, whose sum is `all`; gives what was shared out, and what is left after it.
fn share_walk(
    s: &mut [i64],
    m: usize,
    v: usize,
    by_room: bool,
    down: bool,
    d: u64,
    all: u64,
) -> Sums
    requires { Sharing by_room down m v d all s.old }
    ensures { Shared by_room down m v d s.old s.new result.main result.side }
{
    let mut u = get_above(s, Column::First, v) as usize;
    let mut before: u64 = 0;
    let mut prior: u64 = 0;
    let mut given: u64 = 0;
    let mut left: u64 = 0;
    while u < m {
        let cap = room_at(s, down, u);
        let size = choose(by_room, cap, get_above(s, Column::Weight, u));
        let x = get_above(s, Column::Mass, u);
        let next = get_above(s, Column::Next, u) as usize;
        let upto = quotient(d * (before + size), all);
        let share = cap.min(upto - prior);
        put(s, Column::Mass, u, moved_by(down, x, share));
        before += size;
        given += share;
        left += cap - share;
        prior = upto;
        u = next;
    }
    Sums {
        main: given,
        side: left,
    }
}

// What one node has after each step of a split, clipped, moved by its first share, and by both; and 01's d.
#[derive(Clone, Copy)]
pub struct Watched {
    pub clip: u64,
    pub first: u64,
    pub both: u64,
    pub deficit: i64,
}

// Splits v's mass, which stands in its own row, among the nodes on its chain: their masses take their targets' place. Gives what u has in
// its place after each step.
pub fn split_watched(s: &mut [i64], m: usize, v: usize, u: usize) -> Watched
    requires splitting { Splitting m v s.old }
    requires in_row { InRow MASS s.old u }
    ensures split_watched { SplitWatched m v u s.old s.new result.clip result.first result.both }
    ensures deficit_value { result.deficit ≡ deficit (group_in m v s.old) (num MASS s.old v) }
{
    let mass = get_above(s, Column::Mass, v);
    let clipped = clip_walk(s, m, v);
    let sum = clipped.main;
    let all = clipped.side;
    let clip = get_above(s, Column::Mass, u);
    let deficit = difference(mass, sum);
    let down = deficit < 0;
    let size = deficit.unsigned_abs();
    let shares = share_walk(s, m, v, false, down, size, all);
    let given = shares.main;
    let left = shares.side;
    let first = get_above(s, Column::Mass, u);
    share_walk(s, m, v, true, down, size - given, left);
    let both = get_above(s, Column::Mass, u);
    Watched {
        clip,
        first,
        both,
        deficit,
    }
}

// The split alone. Gives 01's d.
pub fn split_group(s: &mut [i64], m: usize, v: usize) -> i64
    requires { Splitting m v s.old }
    ensures split_done { SplitDone m v s.old s.new }
    ensures value { result ≡ deficit (group_in m v s.old) (num MASS s.old v) }
{
    split_watched(s, m, v, v).deficit
}
