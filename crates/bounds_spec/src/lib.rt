// Bounds from mixing ratios (ticket 8 of 02): the bounds of one cell and of a field, what the conversion checks, answers and writes, and the
// consistency of document 003. Definitions (specs/) and laws (proofs/) alone; the code is in the crates `cell_bounds` and `bounds`.
// Relies on `kept_spec`, `qlt_spec`, `caas_spec` and `numbers`.
#![tactic(auto)]

// The mass of a cell's air, the mass of its tracer, and a mixing ratio in parts of 1048576 (02): three types, so that none stands in another's
// place.
#[derive(Clone, Copy)]
pub struct AirMass(pub u32);

#[derive(Clone, Copy)]
pub struct TracerMass(pub u32);

#[derive(Clone, Copy)]
pub struct Ratio(pub u32);

// What the safety bounds of every cell go by: the smallest low ratio and the largest high ratio of the field.
#[derive(Clone, Copy)]
pub struct FieldRatios {
    pub smallest_low: Ratio,
    pub largest_high: Ratio,
}

// The four bounds of a cell.
#[derive(Clone, Copy)]
pub struct CellBounds {
    pub low: TracerMass,
    pub high: TracerMass,
    pub safe_low: TracerMass,
    pub safe_high: TracerMass,
}
