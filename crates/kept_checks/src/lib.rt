// The checks of Open and Step on a kept field, in their order, with a check put in of the operation that makes them (`verdict`), and the new total of a
// step (`totals`): for the crates `kept` and above; no function is an operation. Relies on `book`, `field_checks`, `kept_spec`, `book_spec`, `qlt_spec` and
// `numbers`.
#![tactic(auto)]

pub mod totals;
pub mod verdict;
