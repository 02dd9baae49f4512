// Hops (SPECIFICATION 11.2): what a hop count is, the layers of a search, and what each of its functions
// asks and leaves. The definitions stand in specs/, and what is proved of them in proofs/; crates
// `traverse` and `search` have the code, and `hops` the calls.
#![tactic(auto)]
