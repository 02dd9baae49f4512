// Rounds of all workers, each naming the next one (SPECIFICATION 15).
#![tactic(auto)]

ghost use Rattle.std.specs.Prelude.{◌≡◌, ◌*◌, ◌≤◌, ◌<◌, length};
ghost use Rattle.desk.specs.Limits.{most_workers};
ghost use Rattle.rounds.specs.Whole.{next_of, round_from};

use step::{Progress, Setup};

// The bytes of a round of the most workers.
pub const MOST: usize = 32;

// A collection that has begun.
#[derive(Clone, Copy)]
pub struct Begun {
    pub setup: Setup,
    pub progress: Progress,
}

// Whom worker b names: the next one, and the last one worker 0.
fn next_of(workers: u32, b: u32) -> u32
    requires { b < workers }
    ensures { result ≡ next_of workers b }
{
    if b + 1 < workers { b + 1 } else { 0 }
}

// Writes a round: a turn of each worker.
// Stays (3): once what `chunks_exact_mut` lends is given back, a proof knows its length alone, and not the bytes written.
pub fn put_round(round: &mut [u8], workers: u32)
    requires { (workers ≤ most_workers) × (length round.old ≡ 2 * workers) }
    ensures { round.new ≡ round_from workers 0 workers }
{
    for b in 0..workers {
        let at = 2 * b as usize;
        round[at] = b as u8;
        round[at + 1] = next_of(workers, b) as u8;
    }
}
