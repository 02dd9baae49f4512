// Matrix Market texts (SPECIFICATION 13): what a text of a graph is, the graph of a text and the text
// of a graph. The definitions stand in specs/, and what is proved of them in proofs/; `parse` reads a
// text, `print` writes one, and `market` has the calls.
#![tactic(auto)]

// The first line of every text, with its line feed.
pub const BANNER: [u8; 49] = *b"%%MatrixMarket matrix coordinate pattern general\n";
