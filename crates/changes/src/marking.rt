// Marking along references. A list of objects in lent words holds those whose references are still
// to be followed; an object is put on it when it is marked, so at most once.
ghost use Rattle.std.specs.Prelude.{◌≡◌, true, List, [], ◌∷◌, ℕ, ◌<◌, length};
ghost use Rattle.graph.specs.Graph.{graph, all_below};
ghost use Rattle.changes.specs.Stores.{completed};
ghost use Rattle.changes.specs.Marking.{Roomy, ListLeft, Touched, Between, Followable, Seeded};

// The mark of an object newly in the set.
pub const NEW: u8 = 255;

// Marks an object and puts it on the list, unless it is marked. How many are on the list then.
// Stays (6): the list stands in lent words, with no heap, so how many of them are in use goes beside it.
fn touch(marks: &mut [u8], list: &mut [u32], top: usize, v: u32, value: u8) -> usize
    requires { Roomy marks.old list.old top × (v < length marks.old) × (0 < value) }
    ensures { Touched value (v ∷ []) marks.old list.old top marks.new list.new result }
{
    let i = v as usize;
    if marks[i] == 0 {
        marks[i] = value;
        list[top] = v;
        return top + 1;
    }
    top
}

// The same for several objects.
pub fn touch_all(
    marks: &mut [u8],
    list: &mut [u32],
    top: usize,
    objects: &[u32],
    value: u8,
) -> usize
    requires { Roomy marks.old list.old top × (all_below (length marks.old) objects.now ≡ true) × (0 < value) }
    ensures { Touched value objects.now marks.old list.old top marks.new list.new result }
{
    let mut count = top;
    for v in objects {
        count = touch(marks, list, count, *v, value);
    }
    count
}

// Follows the references of the objects on the list until none is left.
pub fn follow(offsets: &[u32], targets: &[u32], marks: &mut [u8], list: &mut [u32], top: usize)
    requires { Followable (graph offsets.now targets.now) marks.old list.old top }
    ensures { ((given : List ℕ) → Between (graph offsets.now targets.now) given marks.old
        → marks.new ≡ completed (graph offsets.now targets.now) given)
        × ListLeft top marks.old list.old marks.new list.new }
{
    let mut count = top;
    while count > 0 {
        count -= 1;
        let v = list[count];
        let part = graph::references(offsets, targets, v);
        count = touch_all(marks, list, count, part, NEW);
    }
}

// Looks at pairs: the target of one whose source is marked is marked and put on the empty list.
pub fn seed(from: &[u32], to: &[u32], marks: &mut [u8], list: &mut [u32]) -> usize
    requires { Roomy marks.old list.old 0 × (length from.now ≡ length to.now)
        × (all_below (length marks.old) from.now ≡ true) × (all_below (length marks.old) to.now ≡ true) }
    ensures { Seeded from.now to.now marks.old list.old marks.new list.new result }
{
    let mut count: usize = 0;
    for (source, target) in from.iter().zip(to) {
        if marks[*source as usize] != 0 {
            count = touch(marks, list, count, *target, NEW);
        }
    }
    count
}
