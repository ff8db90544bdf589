// The lines of a query, each from the start of a lent list of bytes. No line has more than 128.
ghost use Rattle.std.specs.Prelude.{◌≡◌, ◌≤◌, ◌<◌, length};
ghost use Rattle.text.specs.Text.{Put};
ghost use Rattle.query_spec.specs.Query.{is_below, distance, parts_line, beyond_line, refused_line};

use numbers::Refusal;
use numbers::lists::sum_of;
use query_spec::Parts;
use text::pieces::{put_named, put_named_signed, put_refusal};

// The outcome and the parts.
pub fn put_parts(out: &mut [u8], outcome: u32, parts: Parts) -> usize
    requires { 128 ≤ length out.old }
    ensures { Put out.old out.new 0 result (parts_line outcome parts) × (result ≤ 128) }
{
    let a = put_named(out, 0, b"outcome ", u64::from(outcome), b' ');
    let b = put_named_signed(out, a, b"clipping ", parts.clipping, b' ');
    let c = put_named_signed(out, b, b"first ", parts.first, b' ');
    put_named_signed(out, c, b"second ", parts.second, b'\n')
}

// On which side of the sums of the safety bounds a total lies, if on any, and how far from the nearest.
#[derive(Clone, Copy)]
struct Side {
    below: bool,
    distance: u64,
}

#[tactic(auto, unfolding(query_spec::specs::Query::is_below, query_spec::specs::Query::distance))]
fn side_of(safe_lows: &[u32], safe_highs: &[u32], total: u32) -> Side
    requires { (length safe_lows.now ≤ 1024) × (length safe_highs.now ≤ 1024) }
    ensures below_value { result.below ≡ is_below safe_lows.now total }
    ensures distance_value { result.distance ≡ distance safe_lows.now safe_highs.now total }
{
    let m = u64::from(total);
    let least = sum_of(safe_lows);
    let most = sum_of(safe_highs);
    let distance = m.abs_diff(least).min(m.abs_diff(most));
    let below = m < least;
    Side { below, distance }
}

// A refusal with the side and the distance after it.
fn put_beyond(out: &mut [u8], refusal: Refusal, side: Side) -> usize
    requires { 128 ≤ length out.old }
    ensures { Put out.old out.new 0 result (beyond_line refusal.number refusal.place side.below side.distance) × (result ≤ 128) }
{
    let a = put_refusal(out, refusal, b' ');
    if side.below {
        return put_named(out, a, b"below ", side.distance, b'\n');
    }
    put_named(out, a, b"above ", side.distance, b'\n')
}

// A refusal; 8 has the side and the distance after it.
pub fn put_refused(
    out: &mut [u8],
    refusal: Refusal,
    safe_lows: &[u32],
    safe_highs: &[u32],
    total: u32,
) -> usize
    requires { (128 ≤ length out.old) × (length safe_lows.now ≤ 1024) × (length safe_highs.now ≤ 1024) }
    ensures { Put out.old out.new 0 result
        (refused_line refusal.number refusal.place safe_lows.now safe_highs.now total) × (result ≤ 128) }
{
    if refusal.number == 8 {
        let side = side_of(safe_lows, safe_highs, total);
        return put_beyond(out, refusal, side);
    }
    put_refusal(out, refusal, b'\n')
}
