// Numbers drawn by a generator whose state goes by value, and counts and differences that cannot overflow.
ghost use Rattle.std.specs.Prelude.{◌<◌};

// A number drawn, and the state behind it.
#[derive(Clone, Copy)]
pub struct Drawn {
    pub state: u32,
    pub value: u32,
}

// The state after another.
fn next(x: u32) -> u32 {
    ((u64::from(x) * 1103515245 + 12345) % 2147483648) as u32
}

// Draws a number below k.
pub fn draw(state: u32, k: u32) -> Drawn
    requires { 0 < k }
    ensures { result.value < k }
{
    let after = next(state);
    Drawn {
        state: after,
        value: after / 65536 % k,
    }
}

// One more. Counters and totals stay below 1000000000.
pub fn more(x: u32) -> u32 {
    x % 1000000000 + 1
}

// The signed difference of two numbers.
pub fn less(a: u32, b: u32) -> i32
    requires { (a < 2000000000) × (b < 2000000000) }
{
    a as i32 - b as i32
}
