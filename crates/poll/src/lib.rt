// The turn of a worker that polls: it answers the asker in its cell, and a batch begins.
#![tactic(auto)]

ghost use Rattle.std.specs.Prelude.{◌≡◌, true, false, List, ℕ, min, ◌-◌, ◌≤◌};
ghost use Rattle.machine.specs.declared.frontier.Held.TheVariants.{Front, Back, Middle};
ghost use Rattle.machine.specs.Machine.{shares as sharing};
ghost use Rattle.worker.specs.Registers.{block_at};
ghost use Rattle.worker.specs.Stretch.{Sharing};
ghost use Rattle.step.specs.Held.{memory, stretch_at};
ghost use Rattle.step.specs.Turned.{Ready, DoesAny};
ghost use Rattle.poll.specs.Polling.{IsPolling, IsAsked};
ghost use Rattle.poll.specs.Dividing.{Dividing, Cutting, InBack, Divided, HeldIn};
ghost use Rattle.poll.specs.Polling.{shared_block, given_block};

use machine::frontier::Held;
use step::{Progress, Step, counts};
use worker::registers::Block;
use worker::stretch::{Cut, Top};
use worker::{registers, stretch};

// What a hand-over leaves: which part held the last reference kept, and the runs of the worker that
// shares and of the asker.
#[derive(Clone, Copy)]
struct Parts {
    pub held: Held,
    pub kept: Top,
    pub given: Top,
}

// The front holds the last reference kept: the asker gets what is left of it and all pairs. (Where the
// paper cuts `r1`, it hands over the rest of `r1` alone, which is too little.)
fn cut_front(work: &mut [u32], len: usize, b: u32, asker: u32, top: Top, k: u32) -> Parts
    requires { Dividing len work.old b asker top k × (k ≤ top.end - top.first) }
    ensures held_value { result.held ≡ Front }
    ensures divided { Divided len work.old b asker top k work.new result.kept result.given }
{
    let from = b as usize * len;
    let given = stretch::behind_front(&work[from..from + len], top, k);
    work.copy_within(from..from + given.used as usize, asker as usize * len);
    Parts {
        held: Held::Front,
        kept: Top {
            used: 0,
            end: top.first + k,
            ..top
        },
        given,
    }
}

// The back holds it: the asker gets its last `rest` references, and no word moves.
fn cut_back(work: &mut [u32], len: usize, b: u32, top: Top, rest: u32) -> Parts
    requires { (a : ℕ) × ((k : ℕ) × InBack len work.old b a top k rest) }
    ensures held_value { result.held ≡ Back }
    ensures by_index { (a k : ℕ) → InBack len work.old b a top k rest
        → Divided len work.old b a top k work.new result.kept result.given }
{
    let from = b as usize * len;
    let end = work[from + 1];
    let first = stretch::cut_back(&mut work[from..from + len], rest);
    Parts {
        held: Held::Back,
        kept: top,
        given: Top {
            used: 0,
            first,
            end,
        },
    }
}

// The middle holds it: worker b keeps what stands above the cut, the asker gets what stands below it,
// and the pair at the cut may be cut itself.
fn cut_middle(work: &mut [u32], len: usize, b: u32, asker: u32, top: Top, cut: Cut) -> Parts
    requires { (k : ℕ) × Cutting len work.old b asker top k cut.place cut.left }
    ensures held_value { result.held ≡ Middle }
    ensures by_index { (k : ℕ) → Cutting len work.old b asker top k cut.place cut.left
        → Divided len work.old b asker top k work.new result.kept result.given }
{
    let from = b as usize * len;
    let below = cut.place - 2;
    let at = from + below as usize;
    let next = work[at] + cut.left;
    let last = work[at + 1];
    work.copy_within(from..at, asker as usize * len);
    let used = stretch::keep_above(&mut work[from..from + len], top.used, cut);
    Parts {
        held: Held::Middle,
        kept: Top { used, ..top },
        given: Top {
            used: below,
            first: next,
            end: last,
        },
    }
}

// A hand-over in the work memory: worker b, whose runs are told by `top`, keeps its first k references,
// and the asker gets the others, `rest` of them. As in the paper's `split` the front is looked at first
// (its `r1`), then the back (`r2`); only where the cut is in the middle (`vs`) are runs walked over.
fn divide(work: &mut [u32], len: usize, b: u32, asker: u32, top: Top, k: u32, rest: u32) -> Parts
    requires { Dividing len work.old b asker top k × Sharing (stretch_at len b work.old) top k rest }
    ensures held_in { (x : Dividing len work.old b asker top k) → HeldIn k x.runs result.held }
    ensures divided { Divided len work.old b asker top k work.new result.kept result.given }
{
    let from = b as usize * len;
    let held = stretch::held(&work[from..from + len], top, k, rest);
    match held {
        Held::Front => cut_front(work, len, b, asker, top, k),
        Held::Back => cut_back(work, len, b, top, rest),
        Held::Middle => {
            let beyond = k - (top.end - top.first);
            let cut = stretch::find_cut(&work[from..from + len], top.used, beyond);
            cut_middle(work, len, b, asker, top, cut)
        }
    }
}

// The block of the worker that shares: it keeps `half` references.
fn shared(r: Block, batch: u32, half: u32, kept: Top) -> Block
    ensures { result ≡ shared_block r (min batch half) half kept }
{
    let k = batch.min(half);
    Block {
        status: registers::LOOK,
        cell: 0,
        since: k,
        batch: k,
        carried: half - k,
        used: kept.used,
        first: kept.first,
        end: kept.end,
        ..r
    }
}

// The block of the asker, who is owed so many references.
fn given(t: Top, carried: u32) -> Block
    ensures { result ≡ given_block t carried }
{
    Block {
        status: registers::GIVEN,
        cell: 0,
        since: 0,
        batch: 0,
        carried,
        used: t.used,
        first: t.first,
        end: t.end,
        target: 0,
    }
}

// The worker keeps the first half of its references, rounded up, and the asker gets the rest. Whoever
// hands over turns black.
fn share(work: &mut [u32], tallies: &mut [u64], regs: &mut [u32], step: Step, r: Block) -> Progress
    requires r_value { r ≡ block_at regs.old step.entry.worker }
    requires by_index { (marks : List ℕ) × Ready (IsAsked step.setup true step.entry.worker) step.setup
        (memory marks work.old tallies.old regs.old step.progress) }
    ensures { (marks : List ℕ) → DoesAny (IsAsked step.setup true step.entry.worker) step.setup step.entry.worker
        (memory marks work.old tallies.old regs.old step.progress)
        (memory marks work.new tallies.new regs.new result) }
{
    let b = step.entry.worker as u32;
    let asker = r.cell - 1;
    let carried = r.carried;
    let half = (carried + 1) / 2;
    let top = Top {
        used: r.used,
        first: r.first,
        end: r.end,
    };
    let rest = carried - half;
    let parts = divide(work, step.setup.stretch, b, asker, top, half, rest);
    registers::store(regs, b, shared(r, step.setup.batch, half, parts.kept));
    registers::store(regs, asker, given(parts.given, rest));
    step::raise(tallies, b, 0, 0, 0, 1);
    counts::handed(step.progress, b)
}

// The asker is answered no.
fn refuse(regs: &mut [u32], step: Step, r: Block) -> Progress
    requires r_value { r ≡ block_at regs.old step.entry.worker }
    requires by_index { (marks : List ℕ) × ((work : List ℕ) × ((tallies : List ℕ)
        × Ready (IsAsked step.setup false step.entry.worker) step.setup (memory marks work tallies regs.old step.progress))) }
    ensures { (marks work tallies : List ℕ) → DoesAny (IsAsked step.setup false step.entry.worker) step.setup step.entry.worker
        (memory marks work tallies regs.old step.progress)
        (memory marks work tallies regs.new result) }
{
    let b = step.entry.worker as u32;
    let carried = r.carried;
    let batch = step.setup.batch.min(carried);
    registers::put(regs, b, registers::CELL, 0);
    registers::begin(regs, b, batch, r.since + batch, carried - batch);
    registers::put(regs, r.cell - 1, registers::STATUS, registers::DENIED);
    counts::moved(step.progress, 0, 1)
}

// Whether a poll shares: where more than K are carried, or where since is at least K and at least 2
// are carried.
fn shares(cutoff: u32, since: u32, carried: u32) -> bool
    ensures { result ≡ sharing cutoff since carried }
{
    cutoff < carried || (cutoff <= since && 2 <= carried)
}

// The cell empties, its asker is answered, and a batch begins.
pub fn poll(work: &mut [u32], tallies: &mut [u64], regs: &mut [u32], step: Step) -> Progress
    requires { (marks : List ℕ) × Ready (IsPolling step.entry.worker) step.setup
        (memory marks work.old tallies.old regs.old step.progress) }
    ensures { (marks : List ℕ) → DoesAny (IsPolling step.entry.worker) step.setup step.entry.worker
        (memory marks work.old tallies.old regs.old step.progress)
        (memory marks work.new tallies.new regs.new result) }
{
    let b = step.entry.worker as u32;
    let r = registers::load(regs, b);
    let cell = r.cell;
    if cell == 0 {
        let carried = r.carried;
        let batch = step.setup.batch.min(carried);
        registers::begin(regs, b, batch, r.since + batch, carried - batch);
        return counts::moved(step.progress, 0, 0);
    }
    if shares(step.setup.cutoff, r.since, r.carried) {
        return share(work, tallies, regs, step, r);
    }
    refuse(regs, step, r)
}
