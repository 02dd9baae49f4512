// Whether the saved words of the workers and of the token ring hold a state of the protocol by which
// workers ask each other for references and find that all have ended (SPECIFICATION 8.1, 8.2).
#![tactic(auto)]

pub mod heads;
pub mod ring;
