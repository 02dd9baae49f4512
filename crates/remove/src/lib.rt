// Taking references out (SPECIFICATION 12): what remains of the store, and the marks afresh on it.
#![tactic(auto)]

ghost use Rattle.std.specs.Prelude.{◌≡◌, true, map, ◌+◌, ◌*◌, ◌≤◌, ◌<◌, length, replicate};
ghost use Rattle.slices.specs.Bits.{word_bits, many_words};
ghost use Rattle.graph.specs.Graph.{graph, all_below};
ghost use Rattle.graph.specs.Formed.{Formed};
ghost use Rattle.graph.specs.Limits.{most_references};
ghost use Rattle.changes.specs.Stores.{chosen, distinct, stays, staying, marks_afresh};
ghost use Rattle.changes.specs.Marking.{ListLeft};
ghost use Rattle.changes.specs.Taking.{Gathered, PartReady, PartKept, ObjectsReady, ObjectsKept};
ghost use Rattle.updates.specs.Call.{Removes, RemoveFinds};

use changes::marking;
use refusal::{Checked, Refusal};
use slices::bits;
use updates::Lengths;

// The mark of a start.
const START: u8 = 1;

// The numbers from base up to end as bits, bit i for base + i. How many there are, a repeated one counting once.
fn gather(numbers: &[u32], taken: &mut [u32], base: u32, end: u32) -> usize
    requires { (base ≤ end) × (end ≤ base + word_bits * length taken.old) }
    ensures { Gathered numbers.now base end result taken.new }
{
    taken.fill(0);
    let mut count: usize = 0;
    for &e in numbers {
        if base <= e && e < end && bits::insert(taken, e - base) {
            count += 1;
        }
    }
    count
}

// How many of m references the numbers name, window by window.
// Stays (3): each window begins where the last one ended; `step_by` would have the same end worked out beside it.
fn count_by(numbers: &[u32], taken: &mut [u32], m: usize) -> usize
    requires { (m ≤ most_references) × (1 ≤ length taken.old) × (length taken.old ≤ many_words) }
    ensures { (result ≡ distinct numbers.now m) × (result ≤ m) }
{
    let all = m as u32;
    let size = bits::WORD * taken.len() as u32;
    let mut count: usize = 0;
    let mut from: u32 = 0;
    while from < all {
        let to = all.min(from + size);
        count += gather(numbers, taken, from, to);
        from = to;
    }
    count
}

// The same with a set of references, which is small where there are few.
// Stays (2): the two sets are arrays of their own sizes; a closure that is given either one would leave the same choice.
fn count_named(numbers: &[u32], m: usize) -> usize
    requires { m ≤ most_references }
    ensures { (result ≡ distinct numbers.now m) × (result ≤ m) }
{
    if m <= bits::FEW_NUMBERS {
        let mut few = [0u32; bits::FEW];
        return count_by(numbers, &mut few, m);
    }
    let mut taken = [0u32; bits::MANY];
    count_by(numbers, &mut taken, m)
}

// The checks, in their order.
fn check(
    offsets: &[u32],
    targets: &[u32],
    numbers: &[u32],
    starts: &[u32],
    lengths: Lengths,
) -> Checked
    ensures { RemoveFinds result offsets.now targets.now numbers.now starts.now lengths }
{
    if checks::graph_outside(offsets.len(), targets.len()) {
        return Err(Refusal::Count);
    }
    if !graph::is_below(targets.len(), numbers) {
        return Err(Refusal::Object);
    }
    let named = count_named(numbers, targets.len());
    if updates::lengths_wrong(offsets.len() - 1, targets.len() - named, lengths) {
        return Err(Refusal::Buffer);
    }
    checks::check_store(offsets, targets, starts)
}

// Writes the targets of those references from one to another that stay, from a place on. The bits are those of the
// references from base on. Where the next target goes.
// Stays (3): a reference's number names its bit as well as its place.
fn keep_part(
    targets: &[u32],
    taken: &[u32],
    places: &mut [u32],
    base: usize,
    from: usize,
    to: usize,
    place: usize,
) -> usize
    requires { PartReady targets.now taken.now places.old base from to place }
    ensures { PartKept targets.now taken.now places.old base from to place result places.new }
{
    let mut at = place;
    for e in from..to {
        if !bits::contains(taken, (e - base) as u32) {
            places[at] = targets[e];
            at += 1;
        }
    }
    at
}

// How far what remains is written: the references below one number, the offsets of the objects below one, and where
// the next target goes.
#[derive(Clone, Copy)]
pub struct Progress {
    pub reference: usize,
    pub object: usize,
    pub place: usize,
}

// Writes the targets up to the window's end, and the offsets of the objects whose references begin in it.
// Stays (3): an object's number is where its offset is written and where the next window begins.
fn keep_objects(
    offsets: &[u32],
    targets: &[u32],
    taken: &[u32],
    bounds: &mut [u32],
    places: &mut [u32],
    done: Progress,
    end: usize,
) -> Progress
    requires { ObjectsReady offsets.now targets.now taken.now bounds.old places.old done.reference done.object done.place end }
    ensures { ObjectsKept offsets.now targets.now taken.now bounds.old places.old
        done.reference done.object done.place end result.reference result.object result.place bounds.new places.new }
{
    let base = done.reference;
    let object = done.object;
    let mut e = base;
    let mut at = done.place;
    for v in object..offsets.len() {
        let next = offsets[v] as usize;
        if end < next {
            let place = keep_part(targets, taken, places, base, e, end, at);
            return Progress {
                reference: end,
                object: v,
                place,
            };
        }
        at = keep_part(targets, taken, places, base, e, next, at);
        bounds[v] = at as u32;
        e = next;
    }
    Progress {
        reference: e,
        object: offsets.len(),
        place: at,
    }
}

// What remains of the store, window by window.
fn keep_by(
    offsets: &[u32],
    targets: &[u32],
    numbers: &[u32],
    taken: &mut [u32],
    bounds: &mut [u32],
    places: &mut [u32],
)
    requires { Formed (graph offsets.now targets.now) × (length targets.now ≤ most_references)
        × (length bounds.old ≡ length offsets.now) × (length places.old ≡ staying numbers.now (length targets.now))
        × (1 ≤ length taken.old) × (length taken.old ≤ many_words) }
    ensures { (bounds.new ≡ map (staying numbers.now) offsets.now)
        × (places.new ≡ chosen (stays numbers.now) 0 targets.now) }
{
    let all = targets.len() as u32;
    let size = bits::WORD * taken.len() as u32;
    let mut done = Progress {
        reference: 0,
        object: 0,
        place: 0,
    };
    while done.object < offsets.len() {
        let from = done.reference as u32;
        let to = all.min(from + size);
        gather(numbers, taken, from, to);
        done = keep_objects(offsets, targets, taken, bounds, places, done, to as usize);
    }
}

// The same with a set of references, which is small where there are few.
// Stays (2): as `count_named`.
fn keep(offsets: &[u32], targets: &[u32], numbers: &[u32], bounds: &mut [u32], places: &mut [u32])
    requires { Formed (graph offsets.now targets.now) × (length targets.now ≤ most_references)
        × (length bounds.old ≡ length offsets.now) × (length places.old ≡ staying numbers.now (length targets.now)) }
    ensures { (bounds.new ≡ map (staying numbers.now) offsets.now)
        × (places.new ≡ chosen (stays numbers.now) 0 targets.now) }
{
    if targets.len() <= bits::FEW_NUMBERS {
        let mut few = [0u32; bits::FEW];
        keep_by(offsets, targets, numbers, &mut few, bounds, places);
        return;
    }
    let mut taken = [0u32; bits::MANY];
    keep_by(offsets, targets, numbers, &mut taken, bounds, places);
}

// The marks afresh: 1 for a start, 255 for others reached.
fn mark_afresh(offsets: &[u32], targets: &[u32], starts: &[u32], marks: &mut [u8], work: &mut [u32])
    requires { Formed (graph offsets.now targets.now) × (all_below (length marks.old) starts.now ≡ true)
        × (length marks.old + 1 ≡ length offsets.now) × (length work.old ≡ length marks.old) × (length work.old < 4294967296) }
    ensures { (marks.new ≡ marks_afresh (graph offsets.now targets.now) starts.now)
        × ListLeft 0 (replicate (length marks.old) 0) work.old marks.new work.new }
{
    marks.fill(0);
    let count = marking::touch_all(marks, work, 0, starts, START);
    marking::follow(offsets, targets, marks, work, count);
}

// Takes the references with these numbers out of the store, and marks afresh.
pub fn remove(
    offsets: &[u32],
    targets: &[u32],
    numbers: &[u32],
    starts: &[u32],
    bounds: &mut [u32],
    places: &mut [u32],
    marks: &mut [u8],
    work: &mut [u32],
) -> Checked
    ensures { Removes offsets.now targets.now numbers.now starts.now
        bounds.old places.old marks.old work.old
        result bounds.new places.new marks.new work.new }
{
    let lengths = Lengths::of(bounds, places, marks, work);
    check(offsets, targets, numbers, starts, lengths)?;
    keep(offsets, targets, numbers, bounds, places);
    mark_afresh(bounds, places, starts, marks, work);
    Ok(())
}
