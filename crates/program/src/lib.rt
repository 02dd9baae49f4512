// The program of SPECIFICATION 7: what it takes, and what it prints for any two files. The definitions
// stand in specs/, and what is proved of them in proofs/; crate `report` has the code.
#![tactic(auto)]

pub mod limits;

// A file as the program got it: whole, with more bytes than its limit, or not at all.
#[derive(Clone, Copy, Debug, PartialEq, Eq)]
pub enum Loaded {
    Whole,
    TooLong,
    Unreadable,
}
