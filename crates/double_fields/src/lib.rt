// What a double gives in a field of Import: its product with 2^k by the cases of IEEE 754 (`cases`, for this crate alone), rounded and held to
// the field's range (`fields`). Everything here is for the crate `doubles`; no function is an operation. Relies on `rounded_division`,
// `doubles_spec` and `numbers`.
#![tactic(auto)]

mod cases;
pub mod fields;
