// For the crates of files: the checks of a file as a whole. Each function has its whole contract.
ghost use Rattle.std.specs.Prelude.{◌≡◌, ◌^◌, ◌<◌, ◌≤◌, length};
ghost use Rattle.blocks.specs.Files.{check_file_length, check_block_count, check_mark};

use crate::block::payload_word;
use numbers::Refusal;
use numbers::checks::unless;

// 14: the length is not 0, not over `most`, and a multiple of 512.
#[tactic(auto, unfolding(crate::specs::Files::check_file_length))]
pub fn check_file_length(most: usize, l: usize) -> Result<(), Refusal>
    ensures { result ≡ check_file_length most l }
{
    unless(0 < l && l <= most && l % 512 == 0, 14, 0)
}

// 14: the length is that of k blocks.
#[tactic(auto, unfolding(crate::specs::Files::check_block_count))]
pub fn check_block_count(l: usize, k: usize) -> Result<(), Refusal>
    requires { k < 2 ^ 33 }
    ensures { result ≡ check_block_count l k }
{
    unless(l == 512 * k, 14, 0)
}

// 16: the first payload word of block 1 is 512.
#[tactic(auto, unfolding(crate::specs::Files::check_mark))]
pub fn check_mark(file: &[u8]) -> Result<(), Refusal>
    requires { 512 ≤ length file.now }
    ensures { result ≡ check_mark file.now }
{
    unless(payload_word(file, 1, 0) == 512, 16, 1)
}
