// The turn machine: definitions in specs/; what is proved of them stands in the crate `theorems`. Here stands only what a
// result is made of.
#![tactic(auto)]

pub mod frontier;

// The counts of a collection: marks set, references followed, polls that shared, asks refused, turns
// that changed something, and workers that carry references now.
#[derive(Clone, Copy)]
pub struct Counts {
    pub live: u64,
    pub followed: u64,
    pub handed: u64,
    pub refused: u64,
    pub moved: u64,
    pub carrying: u64,
}
