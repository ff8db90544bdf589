// What the test programs share: whole numbers read from text, one after another and case by case (module `reader`) or each at its position (module
// `input`), lists of them given in runs (module `runs`), numbers drawn by a generator (module `draws`), fields drawn around kept masses (module
// `fields`), books started (module `books`), the parts of the lines that they print (module `output`), and files of data/ (module `files`). It serves
// the test programs alone; no operation uses it.
// Relies on `book`, `numbers`, and the kit's `io`.
#![tactic(auto)]

pub mod books;
pub mod draws;
pub mod fields;
pub mod files;
pub mod input;
pub mod output;
pub mod reader;
pub mod runs;
