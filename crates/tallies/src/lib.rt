// Whether the counts and the tallies of saved words are those of the marks, the starts and the workers
// (SPECIFICATION 8.2).
#![tactic(auto)]

ghost use Rattle.std.specs.Prelude.{◌≡◌, ◌+◌, ◌≤◌, ◌<◌, length};
ghost use Rattle.laws.specs.Decides.{Decides};
ghost use Rattle.graph.specs.Limits.{most_references};
ghost use Rattle.desk.specs.Lengths.{counts_number, tally_word_count, workers_place};
ghost use Rattle.saved.specs.Layout.{count_in, counts_in, tally_number};
ghost use Rattle.tallies.specs.Counts.{TalliesThere, tally_sum, ClaimsSound, TalliesSound, CountsRight, CountsLow, RangesLow, SumsLow, Agree};

use desk::{Settings, places};
use machine::Counts;

// What the marks, the starts and the workers come to.
#[derive(Clone, Copy, Debug, PartialEq, Eq)]
pub struct Sums {
    pub live: u64,
    pub leaving: u64,
    pub distinct: u64,
    pub ended: u64,
    pub since: u64,
    pub carrying: u64,
    pub carried: u64,
}

// Saved count k.
fn count(saved: &[u32], k: usize) -> u64
    requires { (k < counts_number) × (workers_place ≤ length saved.now) }
    ensures { result ≡ count_in saved.now k }
{
    saved::number(saved, places::COUNTS_PLACE + 2 * k)
}

// The saved counts.
fn saved_counts(saved: &[u32]) -> Counts
    requires { workers_place ≤ length saved.now }
    ensures { result ≡ counts_in saved.now }
{
    Counts {
        live: count(saved, 0),
        followed: count(saved, 1),
        handed: count(saved, 2),
        refused: count(saved, 3),
        moved: count(saved, 4),
        carrying: count(saved, 5),
    }
}

// Number k of worker b's tally.
fn tally(saved: &[u32], workers: u32, b: u32, k: usize) -> u64
    requires { TalliesThere workers saved.now × (b < workers) × (k < tally_word_count) }
    ensures { result ≡ tally_number workers saved.now b k }
{
    let first = places::tallies(workers) + 2 * places::TALLY * b as usize;
    saved::number(saved, first + 2 * k)
}

// Whether number k of the tallies sums to a total.
fn adds_up(saved: &[u32], workers: u32, k: usize, total: u64) -> bool
    requires { TalliesThere workers saved.now × (k < tally_word_count) }
    ensures { Decides result (tally_sum workers saved.now k workers ≡ total) }
{
    let mut left = total;
    for b in 0..workers {
        let x = tally(saved, workers, b, k);
        if left < x {
            return false;
        }
        left -= x;
    }
    left == 0
}

// Whether no worker won and lost more claims than it followed references.
fn claims_sound(saved: &[u32], workers: u32) -> bool
    requires { TalliesThere workers saved.now }
    ensures { Decides result (ClaimsSound workers saved.now) }
{
    for b in 0..workers {
        let followed = tally(saved, workers, b, 0);
        let won = tally(saved, workers, b, 1);
        let lost = tally(saved, workers, b, 2);
        if followed < won || followed - won < lost {
            return false;
        }
    }
    true
}

// Whether the tallies add up to the counts.
fn tallies_sound(saved: &[u32], workers: u32, c: Counts, distinct: u64) -> bool
    requires { TalliesThere workers saved.now }
    ensures { Decides result (TalliesSound workers saved.now c distinct) }
{
    distinct <= c.live
        && adds_up(saved, workers, 0, c.followed)
        && adds_up(saved, workers, 1, c.live - distinct)
        && adds_up(saved, workers, 3, c.handed)
        && claims_sound(saved, workers)
}

// Whether the counts are those of the marks and the workers.
fn counts_right(references: u64, c: Counts, s: Sums) -> bool
    requires { (references ≤ most_references) × SumsLow s }
    ensures { Decides result (CountsRight references c s) }
{
    c.live == s.live
        && c.carrying == s.carrying
        && (s.ended == 0 || s.carried == 0)
        && c.followed <= references
        && c.followed + s.carried + s.leaving == references
}

// Whether they are within their bounds.
fn counts_low(references: u64, workers: u64, cutoff: u64, c: Counts, since: u64) -> bool
    requires { RangesLow references workers cutoff }
    ensures { Decides result (CountsLow references workers cutoff c since) }
{
    c.moved <= 7 * references + workers
        && c.handed <= 3 * references
        && c.handed * cutoff <= 3 * references
        && since <= c.followed
        && c.refused <= c.moved
}

// Both, and the tallies.
pub fn agree(saved: &[u32], references: u64, settings: Settings, s: Sums) -> bool
    requires { TalliesThere settings.workers saved.now × RangesLow references settings.workers settings.cutoff × SumsLow s }
    ensures { Decides result (Agree references settings.workers settings.cutoff saved.now s) }
{
    let workers = settings.workers;
    let c = saved_counts(saved);
    let cutoff = u64::from(settings.cutoff);
    counts_right(references, c, s)
        && counts_low(references, u64::from(workers), cutoff, c, s.since)
        && tallies_sound(saved, workers, c, s.distinct)
}
