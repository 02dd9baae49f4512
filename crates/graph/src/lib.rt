// The store as a graph: offsets and targets (SPECIFICATION 3). Check 10 of them, and the view of
// one object's references. Any offsets and any targets may come in.
#![tactic(auto)]

ghost use Rattle.std.specs.Prelude.{◌≡◌, List, ℕ, ◌+◌, length};
ghost use Rattle.graph.specs.Graph.{rising, all_below, well_formed, references_of, IsPart, graph};

// The most objects of a store (SPECIFICATION 1).
pub const MOST_OBJECTS: usize = 65536;

// The most references.
pub const MOST_REFERENCES: usize = 1048576;

// The most starts of a collection: the index and the leases.
pub const MOST_STARTS: usize = 257;

// The largest size of an object.
pub const LARGEST_SIZE: u64 = 1099511627776;

// Whether no offset is above the one after it.
fn is_rising(offsets: &[u32]) -> bool
    ensures { result ≡ rising offsets.now }
{
    let mut rises = true;
    let mut last = 0;
    for &offset in offsets {
        rises &= last <= offset;
        last = offset;
    }
    rises
}

// Whether no number is above this one. Words are compared as they are, so that the processor takes several at once.
fn is_at_most(most: u32, numbers: &[u32]) -> bool
    ensures { result ≡ all_below (most + 1) numbers.now }
{
    let mut fits = true;
    for &x in numbers {
        fits &= x <= most;
    }
    fits
}

// Whether every number is below n.
pub fn is_below(n: usize, numbers: &[u32]) -> bool
    ensures { result ≡ all_below n numbers.now }
{
    if n == 0 {
        return numbers.is_empty();
    }
    // A word is below any n that is more than the largest word.
    match u32::try_from(n - 1) {
        Ok(most) => is_at_most(most, numbers),
        Err(_) => true,
    }
}

// Check 10: whether the offsets and targets are a graph.
pub fn well_formed(offsets: &[u32], targets: &[u32]) -> bool
    ensures { result ≡ well_formed (graph offsets.now targets.now) }
{
    if offsets.len() == 0 {
        return false;
    }
    if offsets[0] != 0 {
        return false;
    }
    let n = offsets.len() - 1;
    if !is_rising(offsets) {
        return false;
    }
    if offsets[n] as usize != targets.len() {
        return false;
    }
    is_below(n, targets)
}

// A part of the targets: from `start` up to `end`.
#[derive(Clone, Copy, Debug, PartialEq, Eq)]
pub struct Part {
    pub start: usize,
    pub end: usize,
}

// Where object v's references stand among so many targets; the empty part at 0 for none.
pub fn part_of(offsets: &[u32], count: usize, v: u32) -> Part
    ensures { (ts : List ℕ) → length ts ≡ count → IsPart (graph offsets.now ts) v result.start result.end }
{
    let i = v as usize;
    // The last offset begins no object's part.
    if offsets.len() <= i || offsets.len() - i <= 1 {
        return Part { start: 0, end: 0 };
    }
    let start = offsets[i] as usize;
    let end = offsets[i + 1] as usize;
    if end < start {
        return Part { start: 0, end: 0 };
    }
    if count < end {
        return Part { start: 0, end: 0 }; // past the targets
    }
    Part { start, end }
}

// The call `references`: those of object v as that part of the targets, or the empty part.
pub fn references<'a>(offsets: &[u32], targets: &'a [u32], v: u32) -> &'a [u32]
    ensures { result.now ≡ references_of (graph offsets.now targets.now) v }
{
    let part = part_of(offsets, targets.len(), v);
    &targets[part.start..part.end]
}
