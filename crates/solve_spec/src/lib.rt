// The passes over a whole tree in the lent scratch: what each needs and what it leaves. Definitions (specs/) and laws (proofs/) alone; the
// code is in the crate `solve`. Relies on `qlt_spec`, `scratch_spec`, `caas_spec` and `numbers`.
#![tactic(auto)]
