// The tool that reports a source book: the book on standard input, one line on standard output. At most 32769 bytes are read, one more than
// a full book has, so that a longer file is refused. Relies on `book_report`, `text` and the kit's `io`.
#![tactic(auto)]

// The descriptors of standard input and output.
const STANDARD_INPUT: i32 = 0;

const STANDARD_OUTPUT: i32 = 1;

fn main() {
    let mut file = [0u8; 32769];
    let mut out = [0u8; 128];
    let n = io::read_full(STANDARD_INPUT, &mut file);
    if let Ok(k) = book_report::report_book(&file[..n], &mut out) {
        io::write_all(STANDARD_OUTPUT, &out[..k]);
    }
}
