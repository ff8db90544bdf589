// Divisions that are rounded: what is left, what a rounding adds for it, and a division to nearest. Everything here is for the crates
// `double_fields` and `doubles`; no function is an operation. Relies on `doubles_spec`.
#![tactic(auto)]

pub mod rounding;
