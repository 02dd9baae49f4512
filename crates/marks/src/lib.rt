// Whether saved marks are those of a collection (SPECIFICATION 8.2): what they come to, the starts, and the
// targets of references that nobody carries. Nothing lent is written: the objects that are starts are one
// bit each in local words. The references are looked at in windows.
#![tactic(auto)]

ghost use Rattle.std.specs.Prelude.{true, ◌≡◌, ◌≤◌, MatchBool, length};
ghost use Rattle.laws.specs.Decides.{Decides};
ghost use Rattle.graph.specs.Limits.{most_objects};
ghost use Rattle.marks.specs.Marks.{MarksThere, MarksCounted, MarksFound, StartsBelow, StartsThere, StartsFound, TargetsInside, TargetsThere, RowMarked, PartMarked, RowEnd, GapEnd, PartsThere, AllMarked};

use slices::bits;

// The words of a set of all objects.
const OBJECT_WORDS: usize = graph::MOST_OBJECTS / bits::WORD as usize;

// What marks come to: how many are set, and how many references leave unmarked objects.
#[derive(Clone, Copy, Debug, PartialEq, Eq)]
pub struct Counted {
    pub live: u64,
    pub leaving: u64,
}

// What counts is worked out and no jump depends on a mark, and the sums are words, so that the processor takes several objects at
// once.
fn count_marks(offsets: &[u32], marks: &[u32]) -> Counted
    requires { MarksThere offsets.now marks.now }
    ensures { MarksCounted offsets.now marks.now result }
{
    let mut live: u32 = 0;
    let mut leaving: u32 = 0;
    for (v, mark) in marks.iter().enumerate() {
        let none = u32::from(*mark == 0);
        leaving += (offsets[v + 1] - offsets[v]) * none;
        live += 1 - none;
    }
    Counted {
        live: u64::from(live),
        leaving: u64::from(leaving),
    }
}

// The same, where no mark is above the number of workers; else nothing.
pub fn check_marks(offsets: &[u32], marks: &[u32], workers: u32) -> Option<Counted>
    requires { MarksThere offsets.now marks.now }
    ensures { MarksFound workers offsets.now marks.now result }
{
    if !graph::is_below(workers as usize + 1, marks) {
        return None;
    }
    Some(count_marks(offsets, marks))
}

// How many objects the starts are, where all of them are marked; they are counted by a set of objects that is empty at first.
fn count_starts(starts: &[u32], marks: &[u32], seen: &mut [u32]) -> Option<u64>
    requires { StartsThere starts.now marks.now seen.old }
    ensures { StartsFound starts.now marks.now result }
{
    let mut distinct = 0;
    for start in starts {
        if marks[*start as usize] == 0 {
            return None;
        }
        distinct += u64::from(bits::insert(seen, *start));
    }
    Some(distinct)
}

// The same, with such a set; it is small where there are few objects.
// Stays (2): the arms differ in the size of the set alone, and one function with that size would be called in the same two arms.
pub fn check_starts(starts: &[u32], marks: &[u32]) -> Option<u64>
    requires { StartsBelow starts.now (length marks.now) × (length marks.now ≤ most_objects) }
    ensures { StartsFound starts.now marks.now result }
{
    if marks.len() <= bits::FEW_NUMBERS {
        let mut few = [0u32; bits::FEW];
        return count_starts(starts, marks, &mut few);
    }
    let mut seen = [0u32; OBJECT_WORDS];
    count_starts(starts, marks, &mut seen)
}

// A window: the references from one up to another, and the objects that they leave, from one up to another.
#[derive(Clone, Copy, Debug, PartialEq, Eq)]
pub struct Window {
    pub from: u32,
    pub to: u32,
    pub first: usize,
    pub last: usize,
}

// How many references are looked at before it is asked whether a target was unmarked.
const ROW: u32 = 128;

// Whether each of the references from one to another has a marked target. Looks at all of them, so that no jump depends on a mark.
fn row_marked(targets: &[u32], marks: &[u32], from: u32, to: u32) -> bool
    requires { TargetsInside targets.now marks.now to × (from ≤ to) }
    ensures { result ≡ true → RowMarked targets.now marks.now from to }
{
    let mut all = true;
    for target in &targets[from as usize..to as usize] {
        all &= marks[*target as usize] != 0;
    }
    all
}

// Whether each of the references from one to another that nobody carries has a marked target. The set has
// the carried references from base on.
fn part_marked(
    targets: &[u32],
    marks: &[u32],
    carried: &[u32],
    base: u32,
    from: u32,
    to: u32,
) -> bool
    requires { TargetsThere targets.now marks.now carried.now base to × (base ≤ from) }
    ensures { Decides result (PartMarked targets.now marks.now carried.now base from to) }
{
    for e in from..to {
        let target = targets[e as usize];
        if marks[target as usize] == 0 && !bits::contains(carried, e - base) {
            return false;
        }
    }
    true
}

// The same, a row at a time: which references are carried is asked only where a row has an unmarked target.
fn rows_marked(
    targets: &[u32],
    marks: &[u32],
    carried: &[u32],
    base: u32,
    from: u32,
    to: u32,
) -> bool
    requires { TargetsThere targets.now marks.now carried.now base to × (base ≤ from) }
    ensures { Decides result (PartMarked targets.now marks.now carried.now base from to) }
{
    // Stays (3): each row's end is worked out from what is left, and a for over step_by asks for the same end and the same measure.
    let mut e = from;
    while e < to {
        let next = e + ROW.min(to - e);
        if !row_marked(targets, marks, e, next)
            && !part_marked(targets, marks, carried, base, e, next)
        {
            return false;
        }
        e = next;
    }
    true
}

// The first object from v on that is not marked, or that is, as is asked; or the last one's end.
fn alike_end(marks: &[u32], v: usize, last: usize, marked: bool) -> usize
    requires { (v ≤ last) × (last ≤ length marks.now) }
    ensures { MatchBool marked (RowEnd marks.now v last result) (GapEnd marks.now v last result) }
{
    for u in v..last {
        if (marks[u] != 0) != marked {
            return u;
        }
    }
    last
}

// The same for the references of all marked objects that lie in a window. Marked objects in a row are looked at together.
pub fn targets_marked(
    offsets: &[u32],
    targets: &[u32],
    marks: &[u32],
    carried: &[u32],
    window: Window,
) -> bool
    requires { PartsThere offsets.now targets.now marks.now carried.now window }
    ensures { Decides result (AllMarked offsets.now targets.now marks.now carried.now window.from window.to) }
{
    let base = window.from;
    let end = window.to;
    let last = window.last;
    let mut from = base;
    let mut v = window.first;
    // Stays (3): each round passes as many objects as are alike, and no iterator of std lends both what it passed and where it is.
    while v < last {
        let next = alike_end(marks, v, last, true);
        let to = end.min(offsets[next]);
        if !rows_marked(targets, marks, carried, base, from, to) {
            return false;
        }
        v = alike_end(marks, next, last, false);
        from = from.max(offsets[v]);
    }
    rows_marked(targets, marks, carried, base, from, end)
}
