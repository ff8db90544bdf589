// Counters and check numbers.
ghost use Rattle.std.specs.Prelude.{◌<◌};

use test_support::draws::more;

// One more with a number.
pub fn count(number: u32, counts: &mut [u32; 22]) {
    if number < 22 {
        counts[number as usize] = more(counts[number as usize]);
    }
}

// The check number with one value more.
pub fn taken(told: u64, value: u64) -> u64 {
    (told % 1000000007 * 31 + value % 1000000000000) % 1000000007
}

// The check number with every byte of a text.
pub fn taken_text(told: u64, text: &[u8]) -> u64 {
    let mut now = told;
    for byte in text {
        now = taken(now, u64::from(*byte));
    }
    now
}

// The check number of bytes, with one more.
fn with_byte(x: u64, byte: u8) -> u64
    requires { x < 1000000007 }
    ensures { result < 1000000007 }
{
    (x * 31 + u64::from(byte)) % 1000000007
}

// The check number of a buffer.
pub fn check(bytes: &[u8; 32768]) -> u64 {
    let mut x: u64 = 0;
    for byte in bytes {
        x = with_byte(x, *byte);
    }
    x
}
