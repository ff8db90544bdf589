// The size of the file of n cells and m nodes.
ghost use Rattle.std.specs.Prelude.{◌≡◌, ◌*◌, ◌≤◌, ◌<◌, ◌^◌};
ghost use Rattle.files_spec.specs.FieldFile.{field_blocks};

use block_tables::tables::{LIST, table_blocks};
use files_spec::CELLS;

// How many blocks a file of n cells and m nodes has.
pub fn field_blocks(n: usize, m: usize) -> usize
    requires { (n < 2 ^ 32) × (m < 2 ^ 32) }
    ensures { result ≡ field_blocks n m }
{
    1 + table_blocks(CELLS, n) + table_blocks(LIST, m)
}

// How many bytes the file of n cells and m nodes has.
pub fn file_length(n: usize, m: usize) -> usize
    requires { (n ≤ 512) × (m ≤ 1024) }
    ensures { result ≡ 512 * field_blocks n m }
{
    512 * field_blocks(n, m)
}
