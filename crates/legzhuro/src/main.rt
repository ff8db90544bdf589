// The program: a field file on standard input, its listing or the line of its refusal on standard output. At most 18433 bytes are read, one
// more than the largest file has, so that a longer one is refused. Relies on `report`, `text` and the kit's `io`.
#![tactic(auto)]

// The descriptors of standard input and output.
const STANDARD_INPUT: i32 = 0;

const STANDARD_OUTPUT: i32 = 1;

fn main() {
    let mut file = [0u8; 18433];
    let mut out = [0u8; 16384];
    let n = io::read_full(STANDARD_INPUT, &mut file);
    if let Ok(k) = report::report(&file[..n], &mut out) {
        io::write_all(STANDARD_OUTPUT, &out[..k]);
    }
}
