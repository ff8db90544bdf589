// What a call is given, by its fault. A fault is the number drawn, and no enum: most numbers are none.
ghost use Rattle.std.specs.Prelude.{◌<◌, ◌≤◌};

use test_support::draws::less;

// The fault of an opening: 6 for none.
pub fn opening_fault(drawn: u32) -> u32 {
    if drawn < 54 { drawn % 6 } else { 6 }
}

// The member's number, or one that no member has.
pub fn given_number(member: u32, wrong: bool) -> u32 {
    if wrong { member % 8 + 8 } else { member }
}

// The scale, out of range or another one, or the family's.
pub fn given_scale(large: bool, other: bool) -> u32 {
    if large {
        return 31;
    }
    if other { 21 } else { 20 }
}

// The number of cells.
pub fn given_cells(fewer: bool) -> usize
    ensures { result ≤ 8 }
{
    if fewer { 7 } else { 8 }
}

// The number of nodes of a step's field.
pub fn given_nodes(nodes: usize, fault: u32) -> usize
    requires { nodes ≤ 15 }
    ensures { result ≤ 15 }
{
    if fault == 3 { 4 } else { nodes }
}

// The length of a step's scratch: 4 for each node, or one too few.
pub fn given_scratch(nodes: usize, fault: u32) -> usize
    requires { nodes ≤ 15 }
    ensures { result ≤ 60 }
{
    if fault == 4 {
        return (4 * nodes + 59) % 60;
    }
    4 * nodes
}

// The source of a step: the one drawn, or one that goes too far.
pub fn given_source(drawn: u32, fault: u32) -> i32
    requires { drawn < 2000000000 }
{
    match fault {
        12 => -2147483648,
        13 => 2147483647,
        14 => 1000000,
        15 => 60000,
        16 => -4000,
        17 => 4000,
        _ => less(drawn, 1500),
    }
}

// Spoils the safe highs, the weights or the masses of a step's field.
pub fn spoil(fault: u32, safe_highs: &mut [u32; 8], weights: &mut [u32; 8], masses: &mut [u32; 8]) {
    if fault == 9 {
        safe_highs[7] = 2147483647;
    }
    if fault == 10 {
        weights[6] = 1;
        weights[7] = 2147483647;
    }
    if fault == 11 {
        masses[0] = masses[0] % 1000000000 + 1;
    }
}
