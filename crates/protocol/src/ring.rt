// The token ring, and the cells beside it.
ghost use Rattle.std.specs.Prelude.{◌≡◌, ◌<◌, ◌≤◌};
ghost use Rattle.laws.specs.Decides.{Decides};
ghost use Rattle.desk.specs.Limits.{most_workers};
ghost use Rattle.protocol.specs.Heads.{WorkersThere, ended_words};
ghost use Rattle.protocol.specs.Ring.{black_bits, ClearAbove, FirstEnded, RingSound, LinksSound};

use crate::heads;
use desk::places;
use saved::WorkerWords;
use worker::registers;

// Whether one of the lowest so many bits is set.
fn some_black(black: u32, count: u32) -> bool
    requires { count ≤ most_workers }
    ensures { Decides result (0 < black_bits black count) }
{
    for b in 0..count {
        if (black >> b) % 2 == 1 {
            return true;
        }
    }
    false
}

// Whether every worker above the holder carries nothing: it is not busy, and not owed a hand-over.
fn clear_above(saved: &[u32], workers: u32, holder: u32) -> bool
    requires { WorkersThere workers saved.now }
    ensures { Decides result (ClearAbove workers saved.now holder) }
{
    for b in 0..workers {
        let status = WorkerWords::of(saved, b).status;
        if holder < b && registers::GIVEN <= status {
            return false;
        }
    }
    true
}

// Whether worker 0 has ended and holds the token, where so many have ended.
fn first_ended(status: u32, holder: u32, ended: u64) -> bool
    ensures { Decides result (FirstEnded status holder ended) }
{
    ended == 0 || (status == registers::ENDED && holder == 0)
}

// Whether the ring's words are those of a ring, and fit the workers.
fn ring_sound(saved: &[u32], workers: u32, ended: u64) -> bool
    requires { WorkersThere workers saved.now × (1 ≤ workers) × (ended ≡ ended_words saved.now workers) }
    ensures { Decides result (RingSound workers saved.now) }
{
    let holder = saved[places::RING];
    let token = saved[places::RING + 1];
    let black = saved[places::RING + 2];
    if workers <= holder || 1 < token || black >> workers != 0 {
        return false;
    }
    let first = WorkerWords::of(saved, 0).status;
    if !first_ended(first, holder, ended) {
        return false;
    }
    token == 1 || some_black(black, holder + 1) || clear_above(saved, workers, holder)
}

// Whether cells and ring are sound, where so many have ended.
pub fn links_sound(saved: &[u32], workers: u32, ended: u64) -> bool
    requires { WorkersThere workers saved.now × (1 ≤ workers) × (ended ≡ ended_words saved.now workers) }
    ensures { Decides result (LinksSound workers saved.now) }
{
    heads::cells_sound(saved, workers) && ring_sound(saved, workers, ended)
}
