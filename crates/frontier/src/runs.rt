// The stretches: the runs that the workers carry.
ghost use Rattle.std.specs.Prelude.{◌≡◌, ◌+◌, ◌^◌, ◌≤◌, ◌<◌, leb, length, get_or, replicate};
ghost use Rattle.laws.specs.Choice.{pick};
ghost use Rattle.laws.specs.Decides.{Decides};
ghost use Rattle.graph.specs.Graph.{graph};
ghost use Rattle.graph.specs.Limits.{most_objects};
ghost use Rattle.desk.specs.Lengths.{stretch_length};
ghost use Rattle.worker.specs.Registers.{status_given};
ghost use Rattle.frontier.specs.Runs.{HasOwner, Owns, Marking, RunFound, RunsFound, LoadFound, LoadsThere, LoadsFound};

use crate::index;
use desk::places;
use saved::WorkerWords;
use worker::registers;

// How many words there are.
const WORDS: u64 = 4294967296;

// The place so much further on, where the offset there is at or before e. Which it is cannot be foretold, so it is worked out and
// no jump depends on it.
fn further(offset: u32, e: u32, low: usize, half: usize) -> usize
    requires { low + half < 2 ^ 64 }
    ensures { result ≡ pick (leb offset e) (low + half) low }
{
    let at = (u64::from(e) + WORDS - u64::from(offset)) / WORDS;
    low + half * at as usize
}

// The object that reference e leaves: its references begin at or before e, the next one's after e.
// Stays (6): tried, and with std's partition_point a call that takes up a collection of 196,608 references and 65,536 objects takes
// a quarter longer, since that jumps by each comparison.
pub fn object_of(offsets: &[u32], e: u32) -> usize
    requires { HasOwner offsets.now e }
    ensures { Owns offsets.now e result }
{
    let mut low: usize = 0;
    let mut size: usize = offsets.len() - 1;
    while 1 < size {
        let half = size / 2;
        low = further(offsets[low + half], e, low, half);
        size -= half;
    }
    low
}

// The same; the index may tell which it is.
fn object_by(offsets: &[u32], e: u32, index: &[u16]) -> usize
    requires { HasOwner offsets.now e }
    ensures { Owns offsets.now e result }
{
    let v = index::guess(offsets, e, index);
    if offsets[v] <= e && e < offsets[v + 1] {
        return v;
    }
    object_of(offsets, e)
}

// Whether object v has no other references than those from one to another.
fn is_whole(offsets: &[u32], v: usize, from: u32, to: u32) -> bool
    requires { v + 1 < length offsets.now }
    ensures { Decides result ((from ≡ get_or offsets.now v 0) × (to ≡ get_or offsets.now (v + 1) 0)) }
{
    from == offsets[v] && to == offsets[v + 1]
}

// The run from one reference to another, which is after it: whether it has all references of its object; nothing where they are not
// those of one marked object.
fn check_run(
    offsets: &[u32],
    targets: &[u32],
    marks: &[u32],
    index: &[u16],
    from: u32,
    to: u32,
) -> Option<bool>
    requires { Marking (graph offsets.now targets.now) marks.now × (from < to) }
    ensures { RunFound (graph offsets.now targets.now) marks.now from to result }
{
    if targets.len() < to as usize {
        return None;
    }
    let v = object_by(offsets, from, index);
    if offsets[v + 1] < to || marks[v] == 0 {
        return None;
    }
    Some(is_whole(offsets, v, from, to))
}

// What the runs of a stretch come to: how many pairs, and how many references.
#[derive(Clone, Copy, Debug, PartialEq, Eq)]
pub struct Runs {
    pub pairs: usize,
    pub carried: u64,
}

// The pairs of a stretch up to the first that is none. All but the first and the last must be whole.
fn check_runs(
    offsets: &[u32],
    targets: &[u32],
    marks: &[u32],
    index: &[u16],
    stretch: &[u32],
) -> Option<Runs>
    requires { Marking (graph offsets.now targets.now) marks.now × (length stretch.now ≤ stretch_length most_objects) }
    ensures { RunsFound (graph offsets.now targets.now) marks.now stretch.now result }
{
    let mut carried = 0;
    let mut whole = true;
    let (pairs, _) = stretch.as_chunks::<2>();
    for (i, &[from, to]) in pairs.iter().enumerate() {
        if to <= from {
            return Some(Runs { pairs: i, carried });
        }
        // The run before this one was neither stored first nor last, and is not whole.
        if !whole {
            return None;
        }
        let own = check_run(offsets, targets, marks, index, from, to)?;
        if 0 < i {
            whole = own;
        }
        carried += u64::from(to - from);
    }
    Some(Runs {
        pairs: pairs.len(),
        carried,
    })
}

// Whether the words are zeros. Looks at all of them, so that the processor takes several at once.
fn zeros(words: &[u32]) -> bool
    ensures { Decides result (words.now ≡ replicate (length words.now) 0) }
{
    let mut clear = true;
    for word in words {
        clear &= *word == 0;
    }
    clear
}

// How much a worker with this status, batch and stretch carries; nothing where they do not fit.
fn check_stretch(
    offsets: &[u32],
    targets: &[u32],
    marks: &[u32],
    index: &[u16],
    stretch: &[u32],
    status: u32,
    batch: u32,
) -> Option<u64>
    requires { Marking (graph offsets.now targets.now) marks.now × (length stretch.now ≤ stretch_length most_objects) × (status < status_given → batch ≡ 0) }
    ensures { LoadFound (graph offsets.now targets.now) marks.now status batch stretch.now result }
{
    if status < registers::GIVEN {
        if !zeros(stretch) {
            return None;
        }
        return Some(0);
    }
    let runs = check_runs(offsets, targets, marks, index, stretch)?;
    if runs.pairs == 0 || runs.carried < u64::from(batch) {
        return None;
    }
    if !zeros(&stretch[2 * runs.pairs..]) {
        return None;
    }
    Some(runs.carried)
}

// What all workers carry, and how many of them carry something.
#[derive(Clone, Copy, Debug, PartialEq, Eq)]
pub struct Loads {
    pub carrying: u64,
    pub carried: u64,
}

// All workers' stretches; nothing where one does not fit its worker.
pub fn check_stretches(
    offsets: &[u32],
    targets: &[u32],
    marks: &[u32],
    index: &[u16],
    saved: &[u32],
    workers: u32,
) -> Option<Loads>
    requires { LoadsThere (graph offsets.now targets.now) marks.now workers saved.now }
    ensures { LoadsFound (graph offsets.now targets.now) marks.now workers saved.now result }
{
    let mut carrying = 0;
    let mut carried = 0;
    let n = offsets.len() - 1;
    let len = places::stretch(n);
    let stretches = places::marks(workers) + n;
    for b in 0..workers {
        let head = WorkerWords::of(saved, b);
        let from = stretches + b as usize * len;
        let stretch = &saved[from..from + len];
        let own = check_stretch(
            offsets,
            targets,
            marks,
            index,
            stretch,
            head.status,
            head.batch,
        )?;
        carrying += u64::from(own != 0);
        carried += own;
    }
    Some(Loads { carrying, carried })
}
