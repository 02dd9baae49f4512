// What calls have in common (SPECIFICATION 2): their settings and the lengths of their buffers; and, in specs/, the
// checks that several of them make, and the answer of a call for a length. The crate `checks` makes them.
#![tactic(auto)]

pub mod places;

// The most workers, and the largest batch and cutoff.
pub const MOST_WORKERS: u32 = 16;

pub const MOST_SETTING: u32 = 65535;

// The settings of a collection: W, D and K.
#[derive(Clone, Copy, Debug, PartialEq, Eq)]
pub struct Settings {
    pub workers: u32,
    pub batch: u32,
    pub cutoff: u32,
}

// How long the buffers are that a collection is lent; where saved words are lent, how many.
#[derive(Clone, Copy, Debug, PartialEq, Eq)]
pub struct Lengths {
    pub marks: usize,
    pub work: usize,
    pub tallies: usize,
    pub saved: Option<usize>,
}
