// What the calls from C share, for the crates above alone: the value that a call returns, the values that an opening and a step put into lent
// lists, and the check of a step's shape. Relies on `field_checks`, `kept_spec`, `qlt_spec` and `numbers`.
#![tactic(auto)]

pub mod values;
