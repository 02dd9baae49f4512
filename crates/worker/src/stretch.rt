// One worker's stretch of the work memory: the runs below the one being followed as pairs (first,
// end), the run to be followed last standing first. The words behind them say nothing.
// Stays (6): no heap; the runs stand in the lent work words, where the call leaves them (SPECIFICATION 4.5).
ghost use Rattle.std.specs.Prelude.{◌≡◌, ◌+◌, ◌-◌, ◌≤◌, length, get_or, set};
ghost use Rattle.machine.specs.Run.{rest as others};
ghost use Rattle.machine.specs.Split.{held as holder};
ghost use Rattle.worker.specs.Stretch.{Told, Sharing, InFront, Lowerable, Lowered, Cuttable, CutFound, Cleft, KeptAbove, settled};

use machine::frontier::Held;

// The run being followed, from its next reference to its end, and how many words the others take.
// Where first is the end, there is none.
#[derive(Clone, Copy)]
pub struct Top {
    pub used: u32,
    pub first: u32,
    pub end: u32,
}

// Which part of a worker's runs holds the last of the first `keep` references, behind which there are
// `rest` more. The order is that of the paper's `split`: the front (its `r1`), the back (`r2`), which is
// the lowest pair, and what is left is the middle (`vs`). No run is walked over.
pub fn held(s: &[u32], top: Top, keep: u32, rest: u32) -> Held
    requires { Sharing s.now top keep rest }
    ensures { (x : Sharing s.now top keep rest) → result ≡ holder keep x.runs }
{
    if keep <= top.end - top.first {
        return Held::Front;
    }
    if rest < s[1] - s[0] {
        return Held::Back;
    }
    Held::Middle
}

// What is left behind the first k references, where the front holds them: its other references and all
// pairs; or all pairs, the uppermost coming up.
pub fn behind_front(s: &[u32], top: Top, k: u32) -> Top
    requires { InFront s.now top k }
    ensures { (x : InFront s.now top k) → Told (others k x.runs) result s.now }
{
    let used = top.used;
    let first = top.first + k;
    let end = top.end;
    if first < end {
        return Top { used, first, end };
    }
    let at = used as usize - 2;
    Top {
        used: used - 2,
        first: s[at],
        end: s[at + 1],
    }
}

// Where the first k references end: they are the runs above the pair that ends at `place`, and
// the first `left` references of that pair's run.
#[derive(Clone, Copy)]
pub struct Cut {
    pub place: u32,
    pub left: u32,
}

// Walks down from the uppermost pair to where the first k references end.
// Stays (3): the place is the result, and the walk ends at the cut, which is known to be there.
pub fn find_cut(s: &[u32], used: u32, k: u32) -> Cut
    requires { Cuttable s.now used k }
    ensures { CutFound s.now used k result.place result.left }
{
    let mut place = used;
    let mut left = k;
    loop {
        let at = place as usize;
        let size = s[at - 1] - s[at - 2];
        if left < size {
            return Cut { place, left };
        }
        left -= size;
        place -= 2;
    }
}

// Pairs that stand at the end of a stretch, from `at` on, come to its beginning. The uppermost is
// the run to be followed first.
pub fn lower(s: &mut [u32], at: usize) -> Top
    requires { Lowerable s.old at }
    ensures { Lowered s.old at s.new result }
{
    let top = s.len() - 2;
    let first = s[top];
    let end = s[top + 1];
    let used = top - at;
    s.copy_within(at..top, 0);
    Top {
        used: used as u32,
        first,
        end,
    }
}

// Leaves in a stretch only what stands above the cut. Returns how many words that takes.
pub fn keep_above(s: &mut [u32], used: u32, cut: Cut) -> u32
    requires { Cleft s.old used cut.place cut.left }
    ensures { KeptAbove s.old used cut.place cut.left s.new result }
{
    let place = cut.place;
    let left = cut.left;
    let at = place as usize;
    let end = used as usize;
    if left == 0 {
        s.copy_within(at..end, 0);
        return used - place;
    }
    s[at - 1] = s[at - 2] + left;
    s.copy_within(at - 2..end, 0);
    used - (place - 2)
}

// Takes the last `rest` references off the back, which is the lowest pair; all other words stay where
// they are. Returns the first of those references.
pub fn cut_back(s: &mut [u32], rest: u32) -> u32
    requires { (2 ≤ length s.old) × (rest ≤ get_or s.old 1 0) }
    ensures value { result ≡ get_or s.old 1 0 - rest }
    ensures s_after { s.new ≡ set s.old 1 (get_or s.old 1 0 - rest) }
{
    let next = s[1] - rest;
    s[1] = next;
    next
}

// Writes a stretch out as a call leaves it: all runs, the one being followed last, then zeros.
pub fn settle(s: &mut [u32], t: Top)
    requires { t.used + 2 ≤ length s.old }
    ensures { s.new ≡ settled s.old t }
{
    let at = t.used as usize;
    if t.first < t.end {
        s[at] = t.first;
        s[at + 1] = t.end;
        s[at + 2..].fill(0);
    } else {
        s.fill(0);
    }
}
