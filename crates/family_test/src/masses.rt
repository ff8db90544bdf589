// The masses of the members: 8 for each of 8 members in one list.
ghost use Rattle.std.specs.Prelude.{◌≤◌};

use test_support::draws::draw;

// Where a member's masses begin.
fn place(member: u32) -> usize
    ensures { result ≤ 56 }
{
    (member % 8) as usize * 8
}

// Copies a member's masses out of the list.
pub fn load(kept: &[u32; 64], member: u32, masses: &mut [u32; 8]) {
    let at = place(member);
    masses.copy_from_slice(&kept[at..at + 8]);
}

// Copies a member's masses into the list.
pub fn store(masses: &[u32; 8], member: u32, kept: &mut [u32; 64]) {
    let at = place(member);
    kept[at..at + 8].copy_from_slice(masses);
}

// Draws the masses of an opening. Returns the generator's state behind them.
pub fn draw_masses(state: u32, masses: &mut [u32; 8]) -> u32 {
    let mut next = state;
    for mass in masses.iter_mut() {
        let drawn = draw(next, 1000);
        *mass = 500 + drawn.value;
        next = drawn.state;
    }
    next
}
