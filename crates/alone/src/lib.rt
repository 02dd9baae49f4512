// One worker alone: its turns made in rows, look and claim together. Nobody asks it, so nothing is handed over.
#![tactic(auto)]

ghost use Rattle.std.specs.Prelude.{◌≡◌, List, ◌++◌, ℕ, ◌+◌, ◌-◌, ◌≤◌, ◌<◌, ◌^◌, length};
ghost use Rattle.machine.specs.Run.{Run, run_from};
ghost use Rattle.worker.specs.Stretch.{Holds, Told};
ghost use Rattle.step.specs.Held.{memory};
ghost use Rattle.step.specs.Turned.{Ready};
ghost use Rattle.rounds.specs.Whole.{IsStart, DoesRounds};
ghost use Rattle.alone.specs.Alone.{OneReady, OneDone, PartReady, PartDone, polled_of, load_for, Endable, Ends};

use marker::top_of;
use rounds::Begun;
use step::Progress;
use worker::registers;
use worker::registers::Block;
use worker::stretch::Top;

// A part of a run, within the batch, and how many words the runs below it take.
#[derive(Clone, Copy)]
pub struct Part {
    pub first: u32,
    pub size: u32,
    pub used: u32,
}

// What following it brings: the words that the runs below take, the claims won, and the references that opened.
#[derive(Clone, Copy)]
pub struct Found {
    pub used: u32,
    pub won: u32,
    pub opened: u32,
}

// What is left of the batch, what is carried beyond it, and how many polls there were.
#[derive(Clone, Copy)]
pub struct Load {
    pub batch: u32,
    pub carried: u32,
    pub polls: u32,
}

// Pushes the run from first to end, if it has references. How many words the runs take then.
fn push(s: &mut [u32], used: u32, first: u32, end: u32) -> u32
    requires { (used + 2 ≤ length s.old) × (used + 2 < 2 ^ 32) × (first ≤ end) }
    ensures { (rs : List Run) → Holds s.old used rs → Holds s.new result (run_from first (end - first) ++ rs) }
{
    if end <= first {
        return used;
    }
    let at = used as usize;
    s[at] = first;
    s[at + 1] = end;
    used + 2
}

// Follows a reference to v: where v is not marked, it is claimed, and its run is pushed.
fn follow_one(offsets: &[u32], marks: &mut [u8], s: &mut [u32], v: u32, found: Found) -> Found
    requires { OneReady offsets.now marks.old s.old v found }
    ensures { OneDone offsets.now marks.old s.old v found marks.new s.new result }
{
    let at = v as usize;
    let seen = marks[at];
    if seen != 0 {
        return found;
    }
    marks[at] = 1;
    let first = offsets[at];
    let end = offsets[at + 1];
    let used = push(s, found.used, first, end);
    Found {
        used,
        won: found.won + 1,
        opened: found.opened + (end - first),
    }
}

// Follows the references of a part.
fn follow(offsets: &[u32], targets: &[u32], marks: &mut [u8], s: &mut [u32], part: Part) -> Found
    requires some { 1 ≤ part.size }
    requires ready { PartReady offsets.now targets.now marks.old s.old part.first part.size part.used }
    ensures { (x : PartReady offsets.now targets.now marks.old s.old part.first part.size part.used)
        → PartDone x part.size marks.new s.new result }
{
    let from = part.first as usize;
    let to = from + part.size as usize;
    let mut found = Found {
        used: part.used,
        won: 0,
        opened: 0,
    };
    for v in &targets[from..to] {
        found = follow_one(offsets, marks, s, *v, found);
    }
    found
}

// The run to be followed next: what is left of this one, or the one pushed last; none where there is none.
fn next(s: &[u32], top: Top) -> Top
    requires { top.used ≤ length s.now }
    ensures { (more : ℕ) (rs : List Run) → top.end ≡ top.first + more → Holds s.now top.used rs
        → Told (run_from top.first more ++ rs) result s.now }
{
    let used = top.used;
    let first = top.first;
    let end = top.end;
    if first < end {
        return top;
    }
    if used < 2 {
        return Top {
            used: 0,
            first: 0,
            end: 0,
        };
    }
    let at = used as usize - 2;
    Top {
        used: used - 2,
        first: s[at],
        end: s[at + 1],
    }
}

// A poll, where the batch is done: the next one begins.
fn poll(most: u32, l: Load) -> Load
    requires { l.polls + 1 < 2 ^ 32 }
    ensures { result ≡ polled_of most l }
{
    if l.batch == 0 {
        let next = most.min(l.carried);
        return Load {
            batch: next,
            carried: l.carried - next,
            polls: l.polls + 1,
        };
    }
    l
}

// What a worker carries before its first turn, by its block.
fn load_of(r: Block) -> Load
    ensures { result ≡ load_for r }
{
    let carried = if r.status < registers::GIVEN {
        0
    } else {
        r.carried
    };
    Load {
        batch: 0,
        carried,
        polls: 0,
    }
}

// The worker ends, after so many references followed, claims won and polls.
fn end(
    tallies: &mut [u64],
    regs: &mut [u32],
    p: Progress,
    followed: u32,
    won: u32,
    polls: u32,
) -> Progress
    requires { Endable tallies.old regs.old p followed won polls }
    ensures { Ends tallies.old regs.old p followed won polls tallies.new regs.new result }
{
    step::raise(tallies, 0, followed as u64, won as u64, 0, 0);
    registers::put(regs, 0, registers::SINCE, followed);
    registers::put(regs, 0, registers::STATUS, registers::ENDED);
    Progress {
        moved: p.moved + followed as u64 + won as u64 + polls as u64 + 1,
        carrying: 0,
        running: 0,
        ..p
    }
}

// All turns of the only worker.
pub fn take_turns(
    offsets: &[u32],
    targets: &[u32],
    marks: &mut [u8],
    work: &mut [u32],
    tallies: &mut [u64],
    regs: &mut [u32],
    begun: Begun,
) -> Progress
    requires workers_value { begun.setup.workers ≡ 1 }
    requires ready { Ready (IsStart begun.setup offsets.now targets.now) begun.setup
        (memory marks.old work.old tallies.old regs.old begun.progress) }
    ensures { DoesRounds begun.setup offsets.now targets.now
        (memory marks.old work.old tallies.old regs.old begun.progress)
        (memory marks.new work.new tallies.new regs.new result) }
{
    let most = begun.setup.batch;
    let block = registers::load(regs, 0);
    let mut top = top_of(block);
    let mut load = load_of(block);
    let mut followed: u32 = 0;
    let mut won: u32 = 0;
    while top.first < top.end {
        let l = poll(most, load);
        let size = l.batch.min(top.end - top.first);
        let part = Part {
            first: top.first,
            size,
            used: top.used,
        };
        let found = follow(offsets, targets, marks, work, part);
        let rest = Top {
            used: found.used,
            first: top.first + size,
            ..top
        };
        top = next(work, rest);
        load = Load {
            batch: l.batch - size,
            carried: l.carried + found.opened,
            ..l
        };
        followed += size;
        won += found.won;
    }
    end(tallies, regs, begun.progress, followed, won, load.polls)
}
