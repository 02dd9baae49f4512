// What every kind of turn shares: the settings, how far the collection is, the entry of the schedule, and a tally
// that is raised.
#![tactic(auto)]

pub mod counts;
pub mod ring;

ghost use Rattle.std.specs.Prelude.{◌≡◌};
ghost use Rattle.machine.specs.Tally.{tally};
ghost use Rattle.step.specs.Outcome.{progress_of, ToldOver};
ghost use Rattle.step.specs.Raising.{Raisable, raised_words};

use ring::Ring;
use std::ops::ControlFlow;

// W, D, K and the length of a stretch.
#[derive(Clone, Copy)]
pub struct Setup {
    pub workers: u32,
    pub batch: u32,
    pub cutoff: u32,
    pub stretch: usize,
}

// How far a collection is: what its tallies do not tell of its counts, how many workers have not
// ended, and the token ring. Words of another width than the registers': the compiler joins the writing of the two where
// they are of one.
#[derive(Clone, Copy)]
pub struct Progress {
    // The marks that no claim set.
    pub starts: u64,
    pub refused: u64,
    pub moved: u64,
    pub carrying: u64,
    pub running: u64,
    pub ring: Ring,
}

// An entry of the schedule: the worker whose turn it is, and whom it asks. Bytes, as in the schedule: so
// the compiler knows how large they are, and puts following into the loop.
#[derive(Clone, Copy)]
pub struct Entry {
    pub worker: u8,
    pub named: u8,
}

// A turn to be taken: with these settings, so far, and by this entry.
#[derive(Clone, Copy)]
pub struct Step {
    pub setup: Setup,
    pub progress: Progress,
    pub entry: Entry,
}

// How far a turn leaves the collection. A break is told by the turn in which the last worker ends; so no
// other turn need be followed by a test.
pub type Outcome = ControlFlow<Progress, Progress>;

// A worker may have ended, and been the last.
pub fn ending(p: Progress) -> Outcome
    ensures result_value { progress_of result ≡ p }
    ensures told_over { ToldOver result }
{
    if p.running == 0 {
        ControlFlow::Break(p)
    } else {
        ControlFlow::Continue(p)
    }
}

// Worker b's tally, with so many more followed, won, lost and handed. Where a number is 0, no word is
// written for it: the call is compiled in place.
pub fn raise(tallies: &mut [u64], b: u32, followed: u64, won: u64, lost: u64, handed: u64)
    requires { Raisable tallies.old b (tally followed won lost handed) }
    ensures { tallies.new ≡ raised_words tallies.old b (tally followed won lost handed) }
{
    let at = desk::places::TALLY * b as usize;
    let f = tallies[at] + followed;
    let w = tallies[at + 1] + won;
    let l = tallies[at + 2] + lost;
    let h = tallies[at + 3] + handed;
    tallies[at] = f;
    tallies[at + 1] = w;
    tallies[at + 2] = l;
    tallies[at + 3] = h;
}
