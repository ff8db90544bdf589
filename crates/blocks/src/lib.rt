// Blocks of 512 bytes: words, check words, numbers and payloads. Public: `payload`; what the crates of files need besides is in `words`,
// `block` and `files`, and in the crate `block_tables` above. Relies on `numbers`.
#![tactic(auto)]

ghost use Rattle.blocks.specs.Blocks.{PayloadContract};

pub mod block;
pub mod files;
pub mod words;

// The payload of block `number`, counted from 1: that part of the file itself, or the empty part at its start where the file has no such block.
pub fn payload(file: &[u8], number: usize) -> &[u8]
    ensures { PayloadContract file.now number file.entry.ref_ptr result.now result.ref_ptr }
{
    let length = file.len();
    if 0 < number && number <= length / 512 {
        let at = 512 * (number - 1) + 4;
        let end = at + 500;
        return &file[at..end];
    }
    &file[0..0]
}
