// The program: reads `store.cat` and `order.run` in the current folder and prints what the
// collection did. What it prints is made by `report::answer`; here are only files.
#![tactic(auto)]

use program::Loaded;
use program::limits::{MOST_ORDER_BYTES, MOST_STORE_BYTES, TEXT_ROOM};
use std::fs;
use std::io::{Error, Read};
use std::rt::Files;

// A file: how it was got, and what of it stands in the buffer.
#[derive(Clone, Copy)]
struct Got<'a> {
    file: Loaded,
    bytes: &'a [u8],
}

const UNREADABLE: Got<'static> = Got {
    file: Loaded::Unreadable,
    bytes: &[],
};

// How a file was got whose limit has been read: it is asked for one byte more. Its length is not
// asked for, since a pipe has none and a device may tell any.
fn filled(file: &mut impl Read) -> Loaded {
    let mut one = [0u8; 1];
    match file.read(&mut one) {
        Err(_) => Loaded::Unreadable,
        Ok(0) => Loaded::Whole,
        Ok(_) => Loaded::TooLong,
    }
}

// Reads up to the buffer's length, which is the file's limit.
fn read_up_to<'a>(file: &mut impl Read, buffer: &'a mut [u8]) -> Got<'a> {
    let mut at: usize = 0;
    while at < buffer.len() {
        match file.read(&mut buffer[at..]) {
            Err(_) => return UNREADABLE,
            Ok(0) => {
                return Got {
                    file: Loaded::Whole,
                    bytes: &buffer[..at],
                };
            }
            Ok(n) => at += n,
        }
    }
    Got {
        file: filled(file),
        bytes: buffer,
    }
}

// Opens, reads and closes a file.
fn load<'a>(rt: &impl Files, path: &str, buffer: &'a mut [u8]) -> Got<'a> {
    match fs::open(rt, path) {
        Err(_) => UNREADABLE,
        Ok(mut file) => read_up_to(&mut file, buffer),
    }
}

// Tells on standard error that the answer was not written whole, and the system's words for why.
// Stays (2): the crate below both programs, `text`, is part of the C library, which tells nothing and has no heap.
fn tell(rt: &(impl Eprint + Alloc), error: &Error) {
    let _ = match error.to_string(rt.alloc()) {
        Ok(text) => {
            let words = text.as_str();
            let (why, _) = words.rsplit_once(" (os error ").unwrap_or((words, ""));
            eprintln!(rt; "collect: the answer was not written whole: {why}")
        }
        Err(_) => eprintln!(rt; "collect: the answer was not written whole: {error}"),
    };
}

// Makes the answer and writes it. That it could not be written whole is told on standard error.
fn respond(rt: &(impl Print + Eprint + Alloc), store: Got, order: Got, out: &mut [u8]) {
    let n = report::answer(store.file, store.bytes, order.file, order.bytes, out);
    if let Err(error) = rt.write_all(&out[..n]) {
        tell(rt, &error);
    }
}

fn main(rt: HostRuntime) {
    let mut store = [0u8; MOST_STORE_BYTES];
    let mut order = [0u8; MOST_ORDER_BYTES];
    let mut out = [0u8; TEXT_ROOM];
    let storefile = load(&rt, "store.cat", &mut store);
    let orderfile = load(&rt, "order.run", &mut order);
    respond(&rt, storefile, orderfile, &mut out);
}
