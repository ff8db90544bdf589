// Which cells lie below a node: those that are the node itself, and those that parents lead up from to it.

// The node itself, and of any other its parent. Nodes stay below 15, so that the remainder changes none.
fn climb(parents: &[u32; 15], x: u32, node: u32) -> u32 {
    if x == node {
        node
    } else {
        parents[(x % 15) as usize]
    }
}

// Whether a cell lies below a node: no way up is longer than 15 nodes.
fn lies_below(parents: &[u32; 15], cell: u32, node: u32) -> bool {
    let mut x = cell;
    for _ in 0..15 {
        x = climb(parents, x, node);
    }
    x == node
}

// Writes of each cell whether it lies below a node.
pub fn fill_below(parents: &[u32; 15], node: u32, below: &mut [bool; 8]) {
    for (cell, lies) in below.iter_mut().enumerate() {
        *lies = lies_below(parents, cell as u32, node);
    }
}
