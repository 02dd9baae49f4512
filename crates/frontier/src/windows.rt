// The references, a window of them at a time: none is carried twice, and each reference of a marked object that
// nobody carries has a marked target.
ghost use Rattle.std.specs.Prelude.{◌+◌, ◌*◌, ◌≤◌, ◌<◌, length};
ghost use Rattle.laws.specs.Decides.{Decides};
ghost use Rattle.slices.specs.Bits.{word_bits, many_words};
ghost use Rattle.graph.specs.Graph.{graph};
ghost use Rattle.graph.specs.Limits.{most_objects};
ghost use Rattle.desk.specs.Lengths.{stretch_length};
ghost use Rattle.frontier.specs.Runs.{LoadsThere};
ghost use Rattle.frontier.specs.Windows.{Carried, RunsCarried, AllThere, AllCarried, WindowSound};

use crate::{rows, runs};
use desk::places;
use marks::Window;
use saved::WorkerWords;
use slices::bits;
use worker::registers;

// Takes those of the references from one to another that lie in the window from base to end into the set; false
// where one of them is in it already.
fn carry(carried: &mut [u32], base: u32, end: u32, from: u32, to: u32) -> bool
    requires { end ≤ base + word_bits * length carried.old }
    ensures { Carried base end carried.old from to result carried.new }
{
    let low = base.max(from);
    let high = end.min(to);
    if high <= low {
        return true;
    }
    rows::insert(carried, low - base, high - base)
}

// The same for the runs of a stretch.
fn carry_runs(carried: &mut [u32], base: u32, end: u32, stretch: &[u32]) -> bool
    requires { (end ≤ base + word_bits * length carried.old) × (length stretch.now ≤ stretch_length most_objects) }
    ensures { RunsCarried base end carried.old stretch.now result carried.new }
{
    let (pairs, _) = stretch.as_chunks::<2>();
    for &[from, to] in pairs {
        if to <= from {
            return true;
        }
        if !carry(carried, base, end, from, to) {
            return false;
        }
    }
    true
}

// The same for the stretches of all workers that carry something.
fn carry_all(
    carried: &mut [u32],
    base: u32,
    end: u32,
    saved: &[u32],
    n: usize,
    workers: u32,
) -> bool
    requires { AllThere base end carried.old n workers saved.now }
    ensures { AllCarried base end n workers saved.now result carried.new }
{
    let len = places::stretch(n);
    let stretches = places::marks(workers) + n;
    for b in 0..workers {
        let from = stretches + b as usize * len;
        if registers::GIVEN <= WorkerWords::of(saved, b).status
            && !carry_runs(carried, base, end, &saved[from..from + len])
        {
            return false;
        }
    }
    true
}

// The references from one to another.
#[derive(Clone, Copy, Debug, PartialEq, Eq)]
struct Span {
    from: u32,
    to: u32,
}

// Those of a span that the set has room for.
fn check_window(
    offsets: &[u32],
    targets: &[u32],
    marks: &[u32],
    saved: &[u32],
    workers: u32,
    carried: &mut [u32],
    span: Span,
) -> bool
    requires { LoadsThere (graph offsets.now targets.now) marks.now workers saved.now
        × (span.from < span.to) × (span.to ≤ length targets.now) × (span.to ≤ span.from + word_bits * length carried.old) }
    ensures { Decides result (WindowSound (graph offsets.now targets.now) marks.now workers saved.now
        span.from span.to) }
{
    let from = span.from;
    let to = span.to;
    carried.fill(0);
    if !carry_all(carried, from, to, saved, offsets.len() - 1, workers) {
        return false;
    }
    let first = runs::object_of(offsets, from);
    let last = runs::object_of(offsets, to - 1) + 1;
    let window = Window {
        from,
        to,
        first,
        last,
    };
    marks::targets_marked(offsets, targets, marks, carried, window)
}

// All references, in windows as large as the set.
fn check_windows(
    offsets: &[u32],
    targets: &[u32],
    marks: &[u32],
    saved: &[u32],
    workers: u32,
    carried: &mut [u32],
) -> bool
    requires { LoadsThere (graph offsets.now targets.now) marks.now workers saved.now
        × (1 ≤ length carried.old) × (length carried.old ≤ many_words) }
    ensures { Decides result (WindowSound (graph offsets.now targets.now) marks.now workers saved.now 0 (length targets.now)) }
{
    let all = targets.len() as u32;
    let size = bits::WORD * carried.len() as u32;
    // Stays (3): each window's end is worked out from what is left, and a for over step_by asks for the same end and the same measure.
    let mut from: u32 = 0;
    while from < all {
        let to = all.min(from + size);
        if !check_window(
            offsets,
            targets,
            marks,
            saved,
            workers,
            carried,
            Span { from, to },
        ) {
            return false;
        }
        from = to;
    }
    true
}

// The same with a set of references, which is small where there are few.
// Stays (2): the arms differ in the size of the set alone, and one function with that size would be called in the same two arms.
pub fn check_references(
    offsets: &[u32],
    targets: &[u32],
    marks: &[u32],
    saved: &[u32],
    workers: u32,
) -> bool
    requires { LoadsThere (graph offsets.now targets.now) marks.now workers saved.now }
    ensures { Decides result (WindowSound (graph offsets.now targets.now) marks.now workers saved.now 0 (length targets.now)) }
{
    if targets.len() <= bits::FEW_NUMBERS {
        let mut few = [0u32; bits::FEW];
        return check_windows(offsets, targets, marks, saved, workers, &mut few);
    }
    let mut carried = [0u32; bits::MANY];
    check_windows(offsets, targets, marks, saved, workers, &mut carried)
}
