// Decimal numbers, words and the line of a refusal as text, and the contract of every operation that writes a text into a lent list: the
// definitions and their laws, and in `pieces`, for the crates above, functions that put a piece of text into a list of bytes, and a whole
// text to its front. None of them is an operation. Relies on `numbers`.
#![tactic(auto)]

pub mod pieces;
