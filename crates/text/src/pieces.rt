// Pieces of text, each put at a place, with the place after it as the result; and a whole text at the front of a lent list.
ghost use Rattle.std.specs.Prelude.{◌+◌, ◌≤◌, ◌<◌, ◌^◌, length};
ghost use Rattle.text.specs.Text.{Put, digits_of, number, signed_number, named, named_signed, refusal_text};
ghost use Rattle.text.specs.Reports.{Reports};

use numbers::Refusal;
use numbers::checks::check_long;

// Puts the bytes of a word.
pub fn put_bytes(out: &mut [u8], at: usize, word: &[u8]) -> usize
    requires { at + length word.now ≤ length out.old }
    ensures { Put out.old out.new at result word.now }
{
    let end = at + word.len();
    out[at..end].copy_from_slice(word);
    end
}

// Puts x in decimal; k is the most digits that x may have.
fn put_digits(out: &mut [u8], at: usize, x: u64, k: usize) -> usize
    requires { (x < 10 ^ k) × (0 < k) × (at + k ≤ length out.old) }
    ensures { Put out.old out.new at result (digits_of k x) × (result ≤ at + k) }
{
    if x < 10 {
        out[at] = (48 + x) as u8;
        return at + 1;
    }
    let last = put_digits(out, at, x / 10, k - 1);
    out[last] = (48 + x % 10) as u8;
    last + 1
}

// Puts x in decimal, and the byte `after`.
pub fn put_number(out: &mut [u8], at: usize, x: u64, after: u8) -> usize
    requires { at + 21 ≤ length out.old }
    ensures { Put out.old out.new at result (number x after) × (result ≤ at + 21) }
{
    let end = put_digits(out, at, x, 20);
    out[end] = after;
    end + 1
}

// Puts a signed number, and the byte `after`.
pub fn put_signed(out: &mut [u8], at: usize, z: i64, after: u8) -> usize
    requires { at + 22 ≤ length out.old }
    ensures { Put out.old out.new at result (signed_number z after) × (result ≤ at + 22) }
{
    let k = z.unsigned_abs();
    if z < 0 {
        out[at] = 45;
        return put_number(out, at + 1, k, after);
    }
    put_number(out, at, k, after)
}

// Puts a word, a number and the byte `after`.
pub fn put_named(out: &mut [u8], at: usize, word: &[u8], x: u64, after: u8) -> usize
    requires { at + length word.now + 21 ≤ length out.old }
    ensures { Put out.old out.new at result (named word.now x after) × (result ≤ at + length word.now + 21) }
{
    let end = put_bytes(out, at, word);
    put_number(out, end, x, after)
}

// The same of a signed number.
pub fn put_named_signed(out: &mut [u8], at: usize, word: &[u8], z: i64, after: u8) -> usize
    requires { at + length word.now + 22 ≤ length out.old }
    ensures { Put out.old out.new at result (named_signed word.now z after) × (result ≤ at + length word.now + 22) }
{
    let end = put_bytes(out, at, word);
    put_signed(out, end, z, after)
}

// Puts a refusal at the start of a list, and the byte `after`.
pub fn put_refusal(out: &mut [u8], refusal: Refusal, after: u8) -> usize
    requires { 64 ≤ length out.old }
    ensures { Put out.old out.new 0 result (refusal_text refusal.number refusal.place after) × (result ≤ 64) }
{
    let a = put_named(out, 0, b"refused ", u64::from(refusal.number), b' ');
    put_number(out, a, u64::from(refusal.place), after)
}

// Writes a whole text to the front of a lent list, which has to have the room.
pub fn put_front(out: &mut [u8], text: &[u8], room: usize) -> Result<usize, Refusal>
    requires { length text.now ≤ room }
    ensures { Reports text.now room out.old result out.new }
{
    check_long(out.len(), room)?;
    Ok(put_bytes(out, 0, text))
}
