// References that come and go (SPECIFICATION 12): the stores with them and without them, and marks
// brought up to date. The definitions stand in specs/; crate `updates` has the calls.
#![tactic(auto)]

pub mod marking;
