// Names looked up (SPECIFICATION 14): digits, the search among ascending names, and the places of a
// text that may hold one. Nothing but the index is written.
#![tactic(auto)]

ghost use Rattle.std.specs.Prelude.{◌≡◌, ◌+◌, ◌*◌, ◌<◌, ◌≤◌, length, replicate};
ghost use Rattle.laws.specs.Test.{all};
ghost use Rattle.names.specs.Names.{is_digit, order};
ghost use Rattle.names.specs.Call.{work_word_count};
ghost use Rattle.lookup.specs.Index.{nibble, tail_at, lead_of, Indexed, KeepsSet};
ghost use Rattle.lookup.specs.Places.{LastOther, Slides, NextPlace};
ghost use Rattle.lookup.specs.Search.{Searchable, FoundIs};

use slices::bits;
use std::cmp::Ordering;

// The bytes at a name's end that stand for it in the index: each takes the value on by three bits, up to 2^22.
const TAIL: usize = 8;

const TAILS: u32 = 4194304;

// One bit for each value; behind them is where names are to be sought, by their first three digits.
const BITS: usize = 131072;

// Which way a look at a name sent the search.
#[derive(Clone, Copy, Debug, PartialEq, Eq)]
enum Turn {
    Up,
    Down,
}

// Whether a byte is a digit of a name.
fn is_digit(b: u8) -> bool
    ensures { result ≡ is_digit b }
{
    matches!(b, b'0'..=b'9' | b'a'..=b'f')
}

// A digit's value; some number below 16 for any other byte.
fn value(b: u8) -> u32
    ensures { (result ≡ nibble b) × (result < 16) }
{
    let n = u32::from(b);
    (n % 16 + 9 * (n / 64)) % 16
}

// The value of three bytes.
fn three(bytes: &[u8], at: usize) -> u32
    requires { at + 3 ≤ length bytes.now }
    ensures { result < 4096 }
{
    256 * value(bytes[at]) + 16 * value(bytes[at + 1]) + value(bytes[at + 2])
}

// The value of the eight bytes from a place on that end a name.
fn tail(bytes: &[u8], at: usize) -> u32
    requires { at + 8 ≤ length bytes.now }
    ensures { (result ≡ tail_at bytes.now at) × (result < 4194304) }
{
    let byte = |i: usize| u32::from(bytes[at + i]);
    let front = 64 * byte(0) + 8 * byte(1) + byte(2);
    let middle = 64 * byte(3) + 8 * byte(4) + byte(5);
    (32768 * front + 64 * middle + 8 * byte(6) + byte(7)) % TAILS
}

// The first eight bytes of a name as one number, by which most names are told apart; 0 for short names.
fn lead(name: &[u8]) -> u64
    ensures { result ≡ lead_of name.now }
{
    match name.first_chunk() {
        Some(front) => u64::from_be_bytes(*front),
        None => 0,
    }
}

// Whether all bytes are digits.
pub fn all_digits(bytes: &[u8]) -> bool
    ensures { result ≡ all is_digit bytes.now }
{
    // Looks at every byte, so that the loop is compiled without a jump out of it.
    let mut right = true;
    for b in bytes {
        right &= is_digit(*b);
    }
    right
}

// How bytes and a name stand to each other. The lead of the bytes is handed in, since many names are looked at.
// Stays (4): the leads compared by `cmp` and `then_with`, tried, and texts full of names take a tenth longer.
fn look(bytes: &[u8], head: u64, name: &[u8]) -> Ordering
    requires { (length name.now ≡ length bytes.now) × (head ≡ lead_of bytes.now) }
    ensures { result ≡ order bytes.now name.now }
{
    let other = lead(name);
    if head < other {
        return Ordering::Less;
    }
    if other < head {
        return Ordering::Greater;
    }
    bytes.cmp(name)
}

// The order of two names.
pub fn compare(a: &[u8], b: &[u8]) -> Ordering
    requires { length b.now ≡ length a.now }
    ensures { result ≡ order a.now b.now }
{
    look(a, lead(a), b)
}

// Where a name should stand, by its first six digits and the index; any answer is taken.
fn guess(index: &[u32], window: &[u8]) -> usize
    requires { length index.now ≡ work_word_count }
{
    if window.len() < 6 {
        return 0;
    }
    let at = BITS + three(window, 0) as usize;
    let from = u64::from(index[at]);
    let to = u64::from(index[at + 1]);
    if to < from {
        return 0;
    }
    let part = u64::from(three(window, 3));
    (from + (to - from) * part / 4096) as usize
}

// The next place to look at between two bounds, so far from the one where the search stands.
fn between(low: usize, high: usize, step: usize, turn: Option<Turn>) -> usize
    requires { low < high }
    ensures { (low ≤ result) × (result < high) }
{
    let last = high - 1;
    let step = step.min(last - low);
    match turn {
        Some(Turn::Down) => last - step,
        Some(Turn::Up) | None => low + step,
    }
}

// How far to go on: twice as far the same way, as long as that is within what is left, and else half of that.
fn stride(before: Option<Turn>, now: Turn, step: usize, left: usize) -> usize {
    match before {
        None => 0,
        Some(turn) if turn == now && step < left / 2 => 2 * step + 1,
        Some(_) => left / 2,
    }
}

// The number of the name that a window is.
// Stays (6): names are lent as bytes end to end, so `binary_search_by` has no slice of names; and the index says where to begin.
pub fn find(names: &[u8], width: usize, count: usize, index: &[u32], window: &[u8]) -> Option<usize>
    requires { Searchable names.now width count index.now window.now }
    ensures { FoundIs names.now width count window.now result }
{
    let mut low: usize = 0;
    let mut high = count;
    let mut step = guess(index, window);
    let mut turn = None;
    let head = lead(window);
    while low < high {
        let middle = between(low, high, step, turn);
        let start = middle * width;
        let now = match look(window, head, &names[start..start + width]) {
            Ordering::Equal => return Some(middle),
            Ordering::Less => {
                high = middle;
                Turn::Down
            }
            Ordering::Greater => {
                low = middle + 1;
                Turn::Up
            }
        };
        step = stride(turn, now, step, high - low);
        turn = Some(now);
    }
    None
}

// The last byte that is no digit, from one place up to another.
fn last_other(text: &[u8], low: usize, high: usize) -> Option<usize>
    requires { high ≤ length text.now }
    ensures { LastOther text.now low high result }
{
    (low..high).rev().find(|i| !is_digit(text[*i]))
}

// The first place from one on whose tail is in the index; or, as the error, where to go on: behind a
// byte that is no digit and that every window up to there has, or at the end.
fn slide(text: &[u8], from: usize, width: usize, index: &[u32]) -> Result<usize, usize>
    requires { (from + width ≤ length text.now) × (length index.now ≡ work_word_count) × (0 < width) }
    ensures { Slides width index.now text.now from result }
{
    if width < TAIL {
        return Ok(from);
    }
    let end = from + width;
    let mut h = tail(text, end - TAIL);
    for (passed, b) in text[end..].iter().enumerate() {
        if bits::contains(index, h) {
            return Ok(from + passed);
        }
        if !is_digit(*b) {
            return Err(end + passed + 1);
        }
        h = (8 * h + u32::from(*b)) % TAILS;
    }
    if bits::contains(index, h) {
        Ok(text.len() - width)
    } else {
        Err(text.len())
    }
}

// The next place where a name may stand. The bytes up to `sure` were looked at before.
// Stays (3): the place jumps behind what was found, by up to a name's width, and no iterator of std's does.
pub fn next_place(
    text: &[u8],
    from: usize,
    sure: usize,
    width: usize,
    index: &[u32],
) -> Option<usize>
    requires { (from ≤ length text.now) × (from ≤ sure) × (length index.now ≡ work_word_count) × (0 < width) }
    ensures { NextPlace width index.now text.now from result }
{
    let mut at = from;
    let mut known = sure;
    while width <= text.len() - at {
        let end = at + width;
        match last_other(text, known, end) {
            Some(other) => {
                at = other + 1;
                known = end;
            }
            None => match slide(text, at, width, index) {
                Ok(place) => return Some(place),
                Err(next) => {
                    at = next;
                    known = next;
                }
            },
        }
    }
    None
}

// Where names that begin like none begin: where those before them end.
fn fill_hints(index: &mut [u32])
    requires { length index.old ≡ work_word_count }
    ensures { KeepsSet index.old index.new }
{
    let mut most = 0;
    for hint in index[BITS..].iter_mut() {
        most = most.max(*hint);
        *hint = most;
    }
}

// Puts the tails of the names in, and where those that begin alike end.
fn put_names(names: &[u8], width: usize, count: usize, index: &mut [u32])
    requires { (length names.now ≡ width * count) × (length index.old ≡ work_word_count) × (8 ≤ width) }
    ensures { Indexed names.now width count index.new }
{
    for k in 0..count {
        let start = k * width;
        let at = BITS + 1 + three(names, start) as usize;
        index[at] = ((k + 1) % 4294967296) as u32;
        bits::insert(index, tail(names, start + width - TAIL));
    }
}

// The index of names.
pub fn put_index(names: &[u8], width: usize, count: usize, index: &mut [u32])
    requires { (length names.now ≡ width * count) × (length index.old ≡ work_word_count) }
    ensures { Indexed names.now width count index.new }
{
    if TAIL <= width {
        put_names(names, width, count, index);
        fill_hints(index);
    }
}

// The index is gone.
pub fn clear_index(index: &mut [u32])
    ensures { index.new ≡ replicate (length index.old) 0 }
{
    index.fill(0);
}
