// The tool that says where a cell's correction came from: the cell's number is its first argument, the field file is on standard input,
// and one line goes to standard output. At most 18433 bytes are read, one more than the largest file has, so that a longer one is refused.
// The first list has room for the longest argument that Linux hands to a program, 131071 bytes where a page has 4096; of one that is
// missing, or longer, no byte is told. Relies on `query`, `arguments`, `text` and the kit's `io`.
#![tactic(auto)]

use std::rt::Env;

// The descriptors of standard input and output.
const STANDARD_INPUT: i32 = 0;

const STANDARD_OUTPUT: i32 = 1;

fn main(rt: HostRuntime) {
    let mut argument = [0u8; 131072];
    let mut file = [0u8; 18433];
    let mut out = [0u8; 128];
    let k = rt.arg(1, &mut argument).unwrap_or(0);
    let cell = arguments::number_of(&argument[..k]) as usize;
    let n = io::read_full(STANDARD_INPUT, &mut file);
    if let Ok(k) = query::query(&file[..n], cell, &mut out) {
        io::write_all(STANDARD_OUTPUT, &out[..k]);
    }
}
