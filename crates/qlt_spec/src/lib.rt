// QLT over whole masses: the tree, the field, the bounds in force, the whole tree and what holds of it, what the operation Reconstruct
// checks, answers and writes, and that edits below a node stay there (02). Definitions (specs/) and laws (proofs/), and the types that the code shares;
// that is in the crates `field_checks`, `solve` and `reconstruct`. Relies on `caas_spec` and `numbers`.
#![tactic(auto)]

ghost use Rattle.std.specs.Prelude.{◌≡◌};
ghost use Rattle.qlt_spec.specs.Field.{outcome_number};

// The numbers of scratch for each node; `scratch_per_node` in specs/Field.antt.
pub const SCRATCH_PER_NODE: usize = 4;

// The scratch of a field of the most nodes; `max_scratch` in specs/Field.antt.
pub const MAX_SCRATCH: usize = 4096;

// 01's outcome: the total lies between the sums of the lows and of the highs, or is less, or is more.
#[derive(Clone, Copy)]
pub enum Outcome {
    Attainable,
    Below,
    Above,
}

impl Outcome {
    // Its number, as 01, the files and the calls from C give it.
    #[tactic(auto, unfolding(crate::specs::Field::outcome_number))]
    pub fn number(self) -> u32
        ensures { result ≡ outcome_number self }
    {
        match self {
            Outcome::Attainable => 0,
            Outcome::Below => 1,
            Outcome::Above => 2,
        }
    }
}

// What an accepted field gives beside its masses, in 01's terms: the outcome, M and the change; and the sum of the sizes of d over all inner
// nodes, which ticket 2 of 02 calls shared out. The outcome is a number, since `write_answer` is told any and refuses one above 2 with 16.
#[derive(Clone, Copy)]
pub struct Repair {
    pub outcome: u32,
    pub total: u32,
    pub change: u64,
    pub shared: u64,
}

// The lists of a field: for each cell its target, low, high, safe low, safe high and weight; for each node its parent.
#[derive(Clone, Copy)]
pub struct FieldLists<'a> {
    pub targets: &'a [i32],
    pub lows: &'a [u32],
    pub highs: &'a [u32],
    pub safe_lows: &'a [u32],
    pub safe_highs: &'a [u32],
    pub weights: &'a [u32],
    pub parents: &'a [u32],
}
