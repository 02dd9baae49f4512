// The start: the starts are marked, and worker 0 carries their runs in list order.
ghost use Rattle.std.specs.Prelude.{◌≡◌, ◌*◌, length, replicate};
ghost use Rattle.marker.specs.Starting.{Gathering, GathersOne, Gatherable, Gathers, Startable, Started, StretchStarted};

use step::{Progress, Setup, counts};
use worker::registers::Block;
use worker::{registers, stretch};

// What the starts so far come to: the marks set, the references of their runs, and where the runs
// stand, from `at` to the end of the stretch. Each new one stands before the others, so that the
// run to be followed last comes first.
#[derive(Clone, Copy)]
pub struct Gathered {
    pub live: u32,
    pub carried: u32,
    pub at: usize,
}

// One start more: where it is not marked yet, it adds a mark, and its run if it has references.
fn gather_one(offsets: &[u32], v: u32, marks: &mut [u8], s: &mut [u32], t: Gathered) -> Gathered
    requires { Gathering offsets.now v marks.old s.old t }
    ensures { GathersOne offsets.now v marks.old s.old t marks.new s.new result }
{
    let i = v as usize;
    let was = marks[i];
    marks[i] = 1;
    if was != 0 {
        return t;
    }
    let live = t.live + 1;
    let first = offsets[i];
    let end = offsets[i + 1];
    if end <= first {
        return Gathered { live, ..t };
    }
    let at = t.at - 2;
    s[at] = first;
    s[at + 1] = end;
    Gathered {
        live,
        carried: t.carried + (end - first),
        at,
    }
}

// All starts, among marks that are zero.
fn gather(offsets: &[u32], starts: &[u32], marks: &mut [u8], s: &mut [u32]) -> Gathered
    requires { Gatherable offsets.now starts.now marks.old s.old × (marks.old ≡ replicate (length marks.old) 0) }
    ensures { Gathers offsets.now starts.now marks.old s.old marks.new s.new result }
{
    let mut t = Gathered {
        live: 0,
        carried: 0,
        at: s.len(),
    };
    for v in starts {
        t = gather_one(offsets, *v, marks, s, t);
    }
    t
}

// The start, where s is worker 0's stretch and the registers are all zero.
fn start_stretch(
    offsets: &[u32],
    targets: &[u32],
    starts: &[u32],
    setup: Setup,
    marks: &mut [u8],
    s: &mut [u32],
    regs: &mut [u32],
) -> Progress
    requires { Startable offsets.now targets.now starts.now setup marks.old regs.old × (length s.old ≡ setup.stretch) }
    ensures { StretchStarted offsets.now targets.now starts.now setup marks.new s.new regs.new result }
{
    marks.fill(0);
    let t = gather(offsets, starts, marks, s);
    let starts = t.live as u64;
    let carried = t.carried;
    if carried == 0 {
        return counts::begun(starts, 0, setup.workers as u64);
    }
    let top = stretch::lower(s, t.at);
    let first = top.first;
    registers::store(
        regs,
        0,
        Block {
            status: registers::POLL,
            cell: 0,
            since: 0,
            batch: 0,
            carried,
            used: top.used,
            first,
            end: top.end,
            target: targets[first as usize],
        },
    );
    counts::begun(starts, 1, setup.workers as u64)
}

// The start of a checked call in its lent memories, whose registers are all zero. The tallies are cleared by the caller.
pub fn start(
    offsets: &[u32],
    targets: &[u32],
    starts: &[u32],
    setup: Setup,
    marks: &mut [u8],
    work: &mut [u32],
    regs: &mut [u32],
) -> Progress
    requires { Startable offsets.now targets.now starts.now setup marks.old regs.old × (length work.old ≡ setup.workers * setup.stretch) }
    ensures { Started offsets.now targets.now starts.now setup marks.new work.new regs.new result }
{
    let s = &mut work[..setup.stretch];
    start_stretch(offsets, targets, starts, setup, marks, s, regs)
}

// The same, and the tallies are cleared here.
pub fn afresh(
    offsets: &[u32],
    targets: &[u32],
    starts: &[u32],
    setup: Setup,
    marks: &mut [u8],
    work: &mut [u32],
    tallies: &mut [u64],
    regs: &mut [u32],
) -> Progress
    requires { Startable offsets.now targets.now starts.now setup marks.old regs.old × (length work.old ≡ setup.workers * setup.stretch) }
    ensures started { Started offsets.now targets.now starts.now setup marks.new work.new regs.new result }
    ensures tallies_after { tallies.new ≡ replicate (length tallies.old) 0 }
{
    tallies.fill(0);
    start(offsets, targets, starts, setup, marks, work, regs)
}
