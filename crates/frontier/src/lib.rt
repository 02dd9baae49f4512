// Whether the runs of saved words are a frontier: the references that the workers carry are those of marked
// objects, none twice, and behind them every target is marked (SPECIFICATION 8.2). Nothing lent is written:
// the references that are carried are one bit each in local words, a window of them at a time.
#![tactic(auto)]

mod index;
mod rows;
mod runs;
mod windows;

ghost use Rattle.graph.specs.Graph.{graph};
ghost use Rattle.frontier.specs.Runs.{LoadsThere, LoadsFound, LoadedFound};

use index::INDEXED;
use runs::Loads;

// What all workers carry, by an index where there are many references.
fn check_each(
    offsets: &[u32],
    targets: &[u32],
    marks: &[u32],
    saved: &[u32],
    workers: u32,
) -> Option<Loads>
    requires { LoadsThere (graph offsets.now targets.now) marks.now workers saved.now }
    ensures { LoadsFound (graph offsets.now targets.now) marks.now workers saved.now result }
{
    if targets.len() < INDEXED {
        return runs::check_stretches(offsets, targets, marks, &[], saved, workers);
    }
    let mut index = [0u16; index::BLOCKS];
    index::fill(offsets, &mut index);
    runs::check_stretches(offsets, targets, marks, &index, saved, workers)
}

// What all workers carry; nothing where it is no frontier.
pub fn check_loads(
    offsets: &[u32],
    targets: &[u32],
    marks: &[u32],
    saved: &[u32],
    workers: u32,
) -> Option<Loads>
    requires { LoadsThere (graph offsets.now targets.now) marks.now workers saved.now }
    ensures { LoadedFound (graph offsets.now targets.now) marks.now workers saved.now result }
{
    let loads = check_each(offsets, targets, marks, saved, workers)?;
    if !windows::check_references(offsets, targets, marks, saved, workers) {
        return None;
    }
    Some(loads)
}
