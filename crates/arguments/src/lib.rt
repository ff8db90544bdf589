// A tool's numbers are its arguments, in decimal digits (02, ticket 6): the number that an argument's bytes stand for. Every tool reads its
// arguments by this crate. Public: `number_of`. Relies on `text` and `numbers`.
#![tactic(auto)]

ghost use Rattle.std.specs.Prelude.{◌≡◌};
ghost use Rattle.arguments.specs.Argument.{argument};

// Larger than every number that a tool has a use for; `too_large` in specs/Argument.antt.
const TOO_LARGE: u32 = u32::MAX;

// The digits.
const ZERO: u8 = b'0';

const NINE: u8 = b'9';

// The number in decimal digits. An argument that is missing has no bytes; that, or a byte that is no digit, counts as too large.
pub fn number_of(text: &[u8]) -> u32
    ensures { result ≡ argument text.now }
{
    if text.is_empty() {
        return TOO_LARGE;
    }
    let mut value: u32 = 0;
    for byte in text {
        if *byte < ZERO || *byte > NINE {
            return TOO_LARGE;
        }
        value = value
            .saturating_mul(10)
            .saturating_add(u32::from(*byte - ZERO));
    }
    value
}
