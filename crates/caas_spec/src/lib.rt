// ClipAndAssuredSum over whole numbers: the definition of one split of a group of items and what holds of it, and what the operation Split
// checks, answers and writes. Definitions (specs/) and laws (proofs/) alone; the code is in the crates `walks` and `split`. Relies on
// `numbers`.
#![tactic(auto)]
