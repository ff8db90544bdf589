// The text of a listing, from the start of a lent list of bytes. A cell's line has at most 27 bytes, the whole at most 13952.
ghost use Rattle.std.specs.Prelude.{◌≡◌, ◌+◌, ◌*◌, ◌≤◌, ◌<◌, length};
ghost use Rattle.text.specs.Text.{Put};
ghost use Rattle.listing.specs.Listing.{head_line, cell_line, cell_lines, listing};

use numbers::arith::minus;
use qlt_spec::Repair;
use text::pieces::{put_named, put_number, put_signed};

// The first line.
fn put_head(out: &mut [u8], cells: usize, repair: Repair) -> usize
    requires { 128 ≤ length out.old }
    ensures { Put out.old out.new 0 result (head_line cells repair) × (result ≤ 128) }
{
    let a = put_named(out, 0, b"outcome ", u64::from(repair.outcome), b' ');
    let b = put_named(out, a, b"cells ", cells as u64, b' ');
    let c = put_named(out, b, b"total ", u64::from(repair.total), b' ');
    put_named(out, c, b"change ", repair.change, b'\n')
}

// A cell's line.
fn put_cell(out: &mut [u8], at: usize, i: usize, mass: u32, target: i32) -> usize
    requires { (at + 64 ≤ length out.old) × (i < 1000) }
    ensures { Put out.old out.new at result (cell_line i mass target) × (result ≤ at + 27) }
{
    let correction = minus(mass, target);
    let a = put_number(out, at, i as u64, b' ');
    let b = put_number(out, a, u64::from(mass), b' ');
    put_signed(out, b, correction, b'\n')
}

// The lines of all cells.
fn put_cells(out: &mut [u8], at: usize, masses: &[u32], targets: &[i32]) -> usize
    requires { (at + 27 * length masses.now + 64 ≤ length out.old) ×
        (length targets.now ≡ length masses.now) × (length masses.now ≤ 512) }
    ensures { Put out.old out.new at result
        (cell_lines masses.now targets.now (length masses.now)) ×
        (result ≤ at + 27 * length masses.now) }
{
    let mut end = at;
    for (i, mass) in masses.iter().enumerate() {
        end = put_cell(out, end, i, *mass, targets[i]);
    }
    end
}

// The listing of a repaired field.
pub fn put_listing(out: &mut [u8], repair: Repair, masses: &[u32], targets: &[i32]) -> usize
    requires { (16384 ≤ length out.old) × (length targets.now ≡ length masses.now) × (length masses.now ≤ 512) }
    ensures { Put out.old out.new 0 result
        (listing (length masses.now) repair masses.now targets.now) × (result ≤ 13952) }
{
    let end = put_head(out, masses.len(), repair);
    put_cells(out, end, masses, targets)
}
