// The program that prints the deck, one card of six digits to a line.
#![tactic(auto)]

mod print;

use print::TEXT_LENGTH;
use std::io::Error;

// Tells on standard error that the cards were not written whole, and the system's words for why.
// Stays (2): the crate below both programs, `text`, is part of the C library, which tells nothing and has no heap.
fn tell(rt: &(impl Eprint + Alloc), error: &Error) {
    let _ = match error.to_string(rt.alloc()) {
        Ok(text) => {
            let words = text.as_str();
            let (why, _) = words.rsplit_once(" (os error ").unwrap_or((words, ""));
            eprintln!(rt; "deck: the cards were not written whole: {why}")
        }
        Err(_) => eprintln!(rt; "deck: the cards were not written whole: {error}"),
    };
}

fn main(rt: HostRuntime) {
    let mut out = [0u8; TEXT_LENGTH];
    let n = print::put_deck(&mut out);
    if let Err(error) = rt.write_all(&out[..n]) {
        tell(&rt, &error);
    }
}
