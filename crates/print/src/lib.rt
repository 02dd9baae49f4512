// The text of a graph (SPECIFICATION 13): its length, and the text in a buffer of exactly that length.
// Stays (5): a buffer and a place in it; a struct of both is no plainer, since `text::put` takes the two and `slices` `Put` names them.
#![tactic(auto)]

ghost use Rattle.std.specs.Prelude.{◌≡◌, ◌++◌, ℕ, suc, ◌+◌, ◌*◌, ◌≤◌, ◌<◌, length};
ghost use Rattle.laws.specs.Blocks.{laid};
ghost use Rattle.laws.specs.Every.{Every};
ghost use Rattle.laws.specs.Sum.{sum};
ghost use Rattle.graph.specs.Graph.{graph};
ghost use Rattle.graph.specs.Limits.{most_objects, most_references};
ghost use Rattle.slices.specs.Put.{Put};
ghost use Rattle.text.specs.Text.{decimal};
ghost use Rattle.matrix.specs.Layout.{banner, stopped};
ghost use Rattle.matrix.specs.Export.{line_of, pairs_from, counts_line, exported};
ghost use Rattle.matrix.specs.Steps.{Exportable, Printable, pair_at, short, digits_at};

use matrix::BANNER;

// The bytes that part numbers and lines, and the digit 0.
const SPACE: u8 = 32;

const FEED: u8 = 10;

const ZERO: u64 = 48;

// How many decimal digits a number has.
fn width(v: u64) -> usize
    requires { v < short }
    ensures { (result ≡ length (decimal v)) × ((0 < result) × (result ≤ 7)) }
{
    if 1_000_000 <= v {
        7
    } else if 100_000 <= v {
        6
    } else if 10_000 <= v {
        5
    } else if 1_000 <= v {
        4
    } else if 100 <= v {
        3
    } else if 10 <= v {
        2
    } else {
        1
    }
}

// Writes a number of N digits and the byte behind it: no loop is left of that where it is compiled.
fn put_digits<const N: usize>(out: &mut [u8], at: usize, v: u64, stop: u8) -> usize
    requires { (length (decimal v) ≡ N) × (at + N < length out.old) }
    ensures { Put out.old at (stopped (decimal v) stop) out.new result }
{
    out[at + N] = stop;
    let mut left = v;
    for k in (0..N).rev() {
        out[at + k] = (ZERO + left % 10) as u8;
        left /= 10;
    }
    at + N + 1
}

// Writes a number of six or seven digits and the byte behind it: only the counts have so many.
#[inline(never)]
fn put_long(out: &mut [u8], at: usize, v: u64, stop: u8) -> usize
    requires { ((5 < length (decimal v)) × (v < short)) × (at + suc (length (decimal v)) ≤ length out.old) }
    ensures { Put out.old at (stopped (decimal v) stop) out.new result }
{
    match width(v) {
        6 => put_digits::<6>(out, at, v, stop),
        _ => put_digits::<7>(out, at, v, stop),
    }
}

// Writes a number and the byte behind it.
fn put_field(out: &mut [u8], at: usize, v: u64, stop: u8) -> usize
    requires { (v < short) × (at + suc (length (decimal v)) ≤ length out.old) }
    ensures { Put out.old at (stopped (decimal v) stop) out.new result }
{
    match width(v) {
        1 => put_digits::<1>(out, at, v, stop),
        2 => put_digits::<2>(out, at, v, stop),
        3 => put_digits::<3>(out, at, v, stop),
        4 => put_digits::<4>(out, at, v, stop),
        5 => put_digits::<5>(out, at, v, stop),
        _ => put_long(out, at, v, stop),
    }
}

// Writes the line of a pair.
fn put_line(out: &mut [u8], at: usize, from: u64, to: u64) -> usize
    requires { (from + 1 < short) × ((to + 1 < short) × (at + length (line_of (pair_at from to)) ≤ length out.old)) }
    ensures { Put out.old at (line_of (pair_at from to)) out.new result }
{
    let middle = put_field(out, at, from + 1, SPACE);
    put_field(out, middle, to + 1, FEED)
}

// Writes the lines of the references of object v.
fn put_object(out: &mut [u8], at: usize, v: u32, targets: &[u32]) -> usize
    requires { Printable v targets.now out.old at }
    ensures { Put out.old at (laid line_of (pairs_from v targets.now)) out.new result }
{
    let mut end = at;
    for target in targets {
        end = put_line(out, end, u64::from(v), u64::from(*target));
    }
    end
}

// Writes the first line and the counts.
fn put_head(out: &mut [u8], n: u64, m: u64) -> usize
    requires { (n < short) × ((m < short) × (length (banner ++ counts_line n m) ≤ length out.old)) }
    ensures { Put out.old 0 (banner ++ counts_line n m) out.new result }
{
    let first = text::put(out, 0, &BANNER);
    let second = put_field(out, first, n, SPACE);
    let third = put_field(out, second, n, SPACE);
    put_field(out, third, m, FEED)
}

// Writes the text of a graph.
pub fn put_text(out: &mut [u8], offsets: &[u32], targets: &[u32])
    requires { Exportable (graph offsets.now targets.now) × (length out.old ≡ length (exported (graph offsets.now targets.now))) }
    ensures { out.new ≡ exported (graph offsets.now targets.now) }
{
    let n = offsets.len() - 1;
    let mut end = put_head(out, n as u64, targets.len() as u64);
    // Stays (3): two words of `offsets` beside each other and their number are read, which `windows(2).enumerate()` would read by an index too.
    for v in 0..n {
        let first = offsets[v] as usize;
        let after = offsets[v + 1] as usize;
        end = put_object(out, end, v as u32, &targets[first..after]);
    }
}

// How many digits the number of object v has, counted from 1, behind its first: no jump depends on it, so that many are looked at at once.
// Stays (2): four tests where `width` has six, and added up where that one jumps; one function for both would be no plainer.
fn more_digits(v: u32) -> u32
    requires { v < most_objects }
    ensures { (suc result ≡ length (decimal (v + 1))) × (result ≤ 4) }
{
    u32::from(9 <= v) + u32::from(99 <= v) + u32::from(999 <= v) + u32::from(9999 <= v)
}

// The same for the targets of all references.
fn more_in(targets: &[u32]) -> u32
    requires { Every (λ (t : ℕ). t < most_objects) targets.now × (length targets.now ≤ most_references) }
    ensures { (length targets.now + result ≡ sum digits_at targets.now) × (result ≤ 4 * length targets.now) }
{
    let mut more: u32 = 0;
    for target in targets {
        more += more_digits(*target);
    }
    more
}

// How many bytes the text of a graph has: of each line the two bytes behind its numbers, and its numbers.
pub fn text_length(offsets: &[u32], targets: &[u32]) -> usize
    requires { Exportable (graph offsets.now targets.now) }
    ensures { (result ≡ length (exported (graph offsets.now targets.now))) × (result ≤ 100000000) }
{
    let n = offsets.len() - 1;
    let m = targets.len();
    let head = BANNER.len() + 2 * width(n as u64) + width(m as u64) + 3;
    let mut total = head + m + more_in(targets) as usize;
    // Stays (3): as in `put_text`.
    for v in 0..n {
        let size = (offsets[v + 1] - offsets[v]) as usize;
        total += size * (width(v as u64 + 1) + 2);
    }
    total
}
