// The sweep of SPECIFICATION 5: the numbers of the unmarked objects, upwards, and the sum of their
// sizes. Any marks, sizes and list may come in.
#![tactic(auto)]

ghost use Rattle.std.specs.Prelude.{◌≡◌, true, ◌≤◌, length};
ghost use Rattle.sweep.specs.Sweep.{all_fit, Listable, Listed, LiveFor, At, row, sweeping, list_after};
ghost use Rattle.sweep.specs.Collection.{Collection};

use graph::{LARGEST_SIZE, MOST_OBJECTS};
use refusal::Refusal;

// What the sweep finds: how many objects are dead, and the sum of their sizes.
#[derive(Clone, Copy, Debug, PartialEq, Eq)]
pub struct Swept {
    pub count: u32,
    pub freed: u64,
}

// How many dead objects are listed, and the sum of their sizes.
#[derive(Clone, Copy)]
struct Listing {
    count: usize,
    freed: u64,
}

// The upper half of the largest size.
const LARGEST_UPPER: u32 = (LARGEST_SIZE / 4294967296) as u32;

// Whether the upper half of each size is below that of the largest. It looks at every size, so that the loop is compiled without a jump
// out of it, and at halves, of which the processor compares four at once.
fn sizes_below(sizes: &[u64]) -> bool
    ensures { result ≡ true → all_fit sizes.now ≡ true }
{
    let mut below = true;
    for &size in sizes {
        below &= ((size / 4294967296) as u32) < LARGEST_UPPER;
    }
    below
}

// Whether no size is above the largest. Only where one is not below it are they compared one by one.
fn sizes_fit(sizes: &[u64]) -> bool
    ensures { result ≡ all_fit sizes.now }
{
    if sizes_below(sizes) {
        return true;
    }
    for &size in sizes {
        if LARGEST_SIZE < size {
            return false;
        }
    }
    true
}

// How many marks are looked at together.
const BLOCK: usize = 16;

// Whether the objects of a block are all marked. Looks at every mark, so that there is no jump between them.
fn block_live(block: &[u8]) -> bool
    ensures { result ≡ true → LiveFor block.now 0 (length block.now) }
{
    let mut live = true;
    for &mark in block {
        live &= mark != 0;
    }
    live
}

// Goes on with the objects from one up to another. The number of each is written, and counted only where it is dead, so that there is
// no jump between them either.
fn list_part(
    marks: &[u8],
    sizes: &[u64],
    list: &mut [u32],
    from: usize,
    to: usize,
    found: Listing,
) -> Listing
    requires { At marks.now sizes.now list.old list.old found.count found.freed from × (from ≤ to) × (to ≤ length marks.now) }
    ensures { At marks.now sizes.now list.old list.new result.count result.freed to }
{
    let mut count = found.count;
    let mut freed = found.freed;
    for i in from..to {
        let size = sizes[i];
        list[count] = i as u32;
        if marks[i] == 0 {
            count += 1;
            freed += size;
        }
    }
    Listing { count, freed }
}

// Writes the numbers of the unmarked objects to the list's beginning.
fn list_dead(marks: &[u8], sizes: &[u64], list: &mut [u32]) -> Listing
    requires { Listable marks.now sizes.now list.old }
    ensures { Listed marks.now sizes.now list.old list.new result.count result.freed }
{
    let n = marks.len();
    let mut found = Listing { count: 0, freed: 0 };
    let mut from: usize = 0;
    while BLOCK <= n - from {
        let to = from + BLOCK;
        if !block_live(&marks[from..to]) {
            found = list_part(marks, sizes, list, from, to, found);
        }
        from = to;
    }
    list_part(marks, sizes, list, from, n, found)
}

// Checks, then lists the dead, with zeros behind them.
pub fn sweep(marks: &[u8], sizes: &[u64], list: &mut [u32]) -> Result<Swept, Refusal>
    ensures result_value { row result ≡ sweeping marks.now sizes.now list.old }
    ensures list_after { list.new ≡ list_after marks.now sizes.now list.old }
    ensures collection { Collection marks.now (row result) list.new }
{
    let n = sizes.len();
    if checks::out_of_range(n, MOST_OBJECTS) {
        return Err(Refusal::Count);
    }
    if marks.len() != n {
        return Err(Refusal::Buffer);
    }
    if list.len() != n {
        return Err(Refusal::Buffer);
    }
    if !sizes_fit(sizes) {
        return Err(Refusal::Size);
    }
    let Listing { count, freed } = list_dead(marks, sizes, list);
    list[count..].fill(0);
    Ok(Swept {
        count: count as u32,
        freed,
    })
}
