// The counts of a collection: the part that is kept by value and changed by turns, and all of them at
// the end. What the tallies add up to is not counted twice.
ghost use Rattle.std.specs.Prelude.{◌≡◌, ◌≤◌, length};
ghost use Rattle.laws.specs.Sum.{sum};
ghost use Rattle.desk.specs.Lengths.{counts_number};
ghost use Rattle.machine.specs.Ring.{blackened};
ghost use Rattle.machine.specs.Row.{count_words};
ghost use Rattle.step.specs.Ringing.{ring_of, RingAt};
ghost use Rattle.step.specs.Counting.{fresh_progress, Roomy, moved_on, ended_one, followed_on, with_ring, tally_word, Summable, Countable, counts_of};

use crate::ring::Ring;
use crate::{Progress, ring};
use machine::Counts;

// Words of a tally by their number.
pub const FOLLOWED: usize = 0;

pub const WON: usize = 1;

pub const HANDED: usize = 3;

// Before the first turn, with so many starts and workers that carry references.
pub fn begun(starts: u64, carrying: u64, running: u64) -> Progress
    ensures { result ≡ fresh_progress starts carrying running }
{
    Progress {
        starts,
        refused: 0,
        moved: 0,
        carrying,
        running,
        ring: ring::fresh(),
    }
}

// After a turn that follows nothing, with so many more handed and refused. An asker carries from its
// hand-over on.
pub fn moved(p: Progress, handed: u64, refused: u64) -> Progress
    requires { Roomy p × (handed ≤ 1) × (refused ≤ 1) }
    ensures { result ≡ moved_on p handed refused }
{
    Progress {
        refused: p.refused + refused,
        moved: p.moved + 1,
        carrying: p.carrying + handed,
        ..p
    }
}

// After a turn in which a worker ends.
pub fn ended(p: Progress) -> Progress
    requires { Roomy p × (1 ≤ p.running) }
    ensures { result ≡ ended_one p }
{
    Progress {
        moved: p.moved + 1,
        running: p.running - 1,
        ..p
    }
}

// After a turn that follows a reference, with so many more refused, and so many workers left with
// nothing.
pub fn followed(p: Progress, refused: u64, emptied: u64) -> Progress
    requires { Roomy p × (refused ≤ 1) × (emptied ≤ p.carrying) }
    ensures { result ≡ followed_on p refused emptied }
{
    Progress {
        refused: p.refused + refused,
        moved: p.moved + 1,
        carrying: p.carrying - emptied,
        ..p
    }
}

// With another ring, and otherwise as it was.
pub fn ringed(p: Progress, ring: Ring) -> Progress
    ensures { result ≡ with_ring p ring }
{
    Progress { ring, ..p }
}

// After worker b has handed over: its asker carries, and b is black.
pub fn handed(p: Progress, b: u32) -> Progress
    requires { Roomy p × RingAt p.ring b }
    ensures { (x : RingAt p.ring b) → result ≡ moved_on (with_ring p (ring_of (blackened b x.ring))) 1 0 }
{
    let ring = ring::blackened(p.ring, b);
    moved(ringed(p, ring), 1, 0)
}

// What the tallies' words number k add up to.
pub fn total(tallies: &[u64], workers: u32, k: usize) -> u64
    requires { Summable tallies.now workers k }
    ensures { (x : Summable tallies.now workers k) → result ≡ sum (tally_word k) x.tallies }
{
    let mut all: u64 = 0;
    let words = desk::places::TALLY * workers as usize;
    for tally in tallies[..words].chunks_exact(desk::places::TALLY) {
        all += tally[k];
    }
    all
}

// All counts of a collection that is so far.
pub fn counted(tallies: &[u64], workers: u32, p: Progress) -> Counts
    requires { Countable tallies.now workers p }
    ensures { (x : Countable tallies.now workers p) → result ≡ counts_of p x.tallies }
{
    Counts {
        live: p.starts + total(tallies, workers, WON),
        followed: total(tallies, workers, FOLLOWED),
        handed: total(tallies, workers, HANDED),
        refused: p.refused,
        moved: p.moved,
        carrying: p.carrying,
    }
}

// The counts as words, in the struct's order.
pub fn put_counts(c: Counts, words: &mut [u64])
    requires { length words.old ≡ counts_number }
    ensures { words.new ≡ count_words c }
{
    words.copy_from_slice(&[c.live, c.followed, c.handed, c.refused, c.moved, c.carrying]);
}
