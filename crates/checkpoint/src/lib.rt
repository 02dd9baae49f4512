// The checkpoint of a collection: its state as saved words, and the state from them (SPECIFICATION 8.1).
#![tactic(auto)]

pub mod restore;
pub mod save;
mod words;
mod workers;
