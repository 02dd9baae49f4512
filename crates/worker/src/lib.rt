// One worker's words: its block of the registers, and its stretch of the work memory.
#![tactic(auto)]

pub mod registers;
pub mod stretch;
