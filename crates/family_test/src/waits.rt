// How long members wait, and the turns that were made, in one list: for each of 8 members the turns that have passed since it began to wait, then
// the turns that served a member, the idle ones, and the longest wait.
use test_support::draws::more;

// A turn served a member, where these waited before it: it has passed for every member that waits.
pub fn served(turns: &mut [u32; 11], waiting: u8, member: u32) {
    for i in 0..8 {
        if waiting >> i & 1 == 1 {
            turns[i] = more(turns[i]);
        }
    }
    let place = (member % 8) as usize;
    turns[8] = more(turns[8]);
    turns[10] = turns[10].max(turns[place]);
    turns[place] = 0;
}

// A turn was idle.
pub fn idle(turns: &mut [u32; 11]) {
    turns[9] = more(turns[9]);
}

// Nobody waits.
pub fn forget(turns: &mut [u32; 11]) {
    turns[..8].fill(0);
}
