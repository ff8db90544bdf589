// Words of 32 bits in bytes, signed numbers as words, and numbers of 64 bits as two words.
ghost use Rattle.std.specs.Prelude.{◌≡◌, ◌+◌, ◌-◌, ◌*◌, ◌<◌, ◌≤◌, length};
ghost use Rattle.numbers.specs.Lists.{written};
ghost use Rattle.blocks.specs.Words.{word_at, word_bytes, signed_word, word_signed, low_word, high_word, two_words};

// The word whose first byte is at `i`.
#[tactic(auto, unfolding(crate::specs::Words::word_at))]
pub fn word_at(bytes: &[u8], i: usize) -> u32
    requires { i + 4 ≤ length bytes.now }
    ensures { result ≡ word_at bytes.now i }
{
    u32::from_le_bytes([bytes[i], bytes[i + 1], bytes[i + 2], bytes[i + 3]])
}

// Stores a word from `i` on.
pub fn put_word(bytes: &mut [u8], i: usize, x: u32)
    requires { i + 4 ≤ length bytes.old }
    ensures { bytes.new ≡ written bytes.old i (word_bytes x) }
{
    bytes[i..i + 4].copy_from_slice(&x.to_le_bytes());
}

// The number that a word stands for in two's complement, and the word of a number.
pub fn word_signed(x: u32) -> i32
    ensures { result ≡ word_signed x }
{
    x.cast_signed()
}

pub fn signed_word(z: i32) -> u32
    ensures { result ≡ signed_word z }
{
    z.cast_unsigned()
}

// The two words of a number of 64 bits, and the number that two words make.
pub fn low_word(x: u64) -> u32
    ensures { result ≡ low_word x }
{
    (x % 4294967296) as u32
}

pub fn high_word(x: u64) -> u32
    ensures { result ≡ high_word x }
{
    (x / 4294967296) as u32
}

pub fn two_words(low: u32, high: u32) -> u64
    ensures { result ≡ two_words low high }
{
    u64::from(low) + u64::from(high) * 4294967296
}
