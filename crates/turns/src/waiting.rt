// Who waits: a byte with a bit for each member, and the search for the first that waits.
ghost use Rattle.std.specs.Prelude.{◌≡◌, ◌^◌, ◌<◌};
ghost use Rattle.family_spec.specs.Family.{schedule};
ghost use Rattle.family_spec.specs.Waiting.{waits, with_bit, without_bit, first_waiting};
ghost use Rattle.family_spec.specs.Operations.{serve};

use family_spec::Family;

// The byte of bit i alone.
fn power(i: u32) -> u8
    requires { i < 8 }
    ensures { result ≡ 2 ^ i }
{
    1u8 << i
}

// Whether bit i is set.
#[tactic(auto, using(family_spec::proofs::ByteLaws::bit_read))]
fn is_waiting(byte: u8, i: u32) -> bool
    requires { i < 8 }
    ensures { result ≡ waits byte i }
{
    byte & power(i) != 0
}

// The byte with bit i set.
#[tactic(auto, using(family_spec::proofs::ByteLaws::bit_set))]
fn with_bit(byte: u8, i: u32) -> u8
    requires { i < 8 }
    ensures { result ≡ with_bit byte i }
{
    byte | power(i)
}

// The byte with bit i clear.
#[tactic(auto, using(family_spec::proofs::ByteLaws::bit_cleared))]
fn without_bit(byte: u8, i: u32) -> u8
    requires { i < 8 }
    ensures { result ≡ without_bit byte i }
{
    byte & !power(i)
}

// The first member from `from` on, going round, whose bit is set.
pub fn first_waiting(byte: u8, from: u32) -> Option<u32>
    ensures { result ≡ first_waiting byte from 8 }
{
    for k in 0..8 {
        let i = (from % 8 + k) % 8;
        if is_waiting(byte, i) {
            return Some(i);
        }
    }
    None
}

// The family with a member registered: it waits.
pub fn registered(family: Family, i: u32) -> Family
    requires { i < 8 }
    ensures { result ≡ schedule family (with_bit family.waiting i) family.from }
{
    let mut given = family;
    given.waiting = with_bit(family.waiting, i);
    given
}

// The family with a member served: its waiting has ended, and the search begins after it.
pub fn served(family: Family, i: u32) -> Family
    requires { i < 8 }
    ensures { result ≡ serve family i }
{
    let mut given = family;
    given.waiting = without_bit(family.waiting, i);
    given.from = (i + 1) % 8;
    given
}
