// The marker's call: its checks in their order, the start, the turns of the schedule, and the answer.
#![tactic(auto)]

pub mod start;

ghost use Rattle.std.specs.Prelude.{◌≡◌, ◌≤◌, IfOk};
ghost use Rattle.graph.specs.Limits.{most_objects};
ghost use Rattle.step.specs.Counting.{Countable};
ghost use Rattle.step.specs.Held.{memory};
ghost use Rattle.step.specs.Turned.{Ready};
ghost use Rattle.marker.specs.Answer.{call_of, row, Finds, Answered};
ghost use Rattle.marker.specs.Stages.{IsScheduled, DoesAll, top_for, Settling, Settled, row_of, setup_of, setup_for};

use desk::{Lengths, Settings, places};
use machine::Counts;
use refusal::{Checked, Refusal};
use std::ops::ControlFlow;
use step::{Entry, Progress, Setup, Step, counts};
use worker::registers::Block;
use worker::stretch::Top;
use worker::{registers, stretch};

// What the turns of an accepted call come to.
#[derive(Clone, Copy)]
pub enum Marked {
    // All workers have ended.
    Finished(Counts),
    Unfinished(Counts),
}

// The checks, in their order.
pub fn check(
    offsets: &[u32],
    targets: &[u32],
    starts: &[u32],
    settings: Settings,
    schedule: &[u8],
    lengths: Lengths,
) -> Checked
    ensures { Finds result (call_of offsets.now targets.now starts.now settings schedule.now) lengths }
{
    if checks::settings_outside(settings) {
        return Err(Refusal::Setting);
    }
    if checks::graph_outside(offsets.len(), targets.len()) {
        return Err(Refusal::Count);
    }
    if checks::lengths_wrong(offsets.len() - 1, settings.workers, lengths) {
        return Err(Refusal::Buffer);
    }
    checks::check_store(offsets, targets, starts)?;
    if !checks::schedule_fits(schedule, settings.workers) {
        return Err(Refusal::Schedule);
    }
    Ok(())
}

// The checks, and what an accepted call is set to.
pub fn accept(
    offsets: &[u32],
    targets: &[u32],
    starts: &[u32],
    settings: Settings,
    schedule: &[u8],
    lengths: Lengths,
) -> Result<Setup, Refusal>
    ensures finds { Finds result (call_of offsets.now targets.now starts.now settings schedule.now) lengths }
    ensures setup_is { IfOk result (λ g. g ≡ setup_of (call_of offsets.now targets.now starts.now settings schedule.now)) }
{
    check(offsets, targets, starts, settings, schedule, lengths)?;
    Ok(setup_of(settings, offsets.len() - 1))
}

// The runs that a block tells of: none where the worker carries nothing.
pub fn top_of(r: Block) -> Top
    ensures { result ≡ top_for r }
{
    if r.status < registers::GIVEN {
        return Top {
            used: 0,
            first: 0,
            end: 0,
        };
    }
    Top {
        used: r.used,
        first: r.first,
        end: r.end,
    }
}

// Writes each worker's stretch out as the call leaves it.
// Stays (3): once what `chunks_exact_mut` lends is given back, a proof knows its length alone, and not the words written.
pub fn settle(setup: Setup, work: &mut [u32], regs: &[u32])
    requires { Settling setup.workers setup.stretch work.old regs.now }
    ensures { Settled setup.workers setup.stretch work.old regs.now work.new }
{
    let workers = setup.workers;
    let len = setup.stretch;
    for b in 0..workers {
        let top = top_of(registers::load(regs, b));
        let from = b as usize * len;
        stretch::settle(&mut work[from..from + len], top);
    }
}

// The turns of a schedule, in order, from any state, until all workers have ended.
pub fn take_turns(
    offsets: &[u32],
    targets: &[u32],
    setup: Setup,
    schedule: &[u8],
    marks: &mut [u8],
    work: &mut [u32],
    tallies: &mut [u64],
    regs: &mut [u32],
    begun: Progress,
) -> Progress
    requires { Ready (IsScheduled setup offsets.now targets.now schedule.now) setup (memory marks.old work.old tallies.old regs.old begun) }
    ensures { DoesAll (IsScheduled setup offsets.now targets.now schedule.now)
        setup schedule.now (memory marks.old work.old tallies.old regs.old begun)
        (memory marks.new work.new tallies.new regs.new result) }
{
    if begun.running == 0 {
        return begun;
    }
    let mut p = begun;
    for pair in schedule.chunks_exact(2) {
        let entry = Entry {
            worker: pair[0],
            named: pair[1],
        };
        let step = Step {
            setup,
            progress: p,
            entry,
        };
        match turns::turn(offsets, targets, marks, work, tallies, regs, step) {
            ControlFlow::Continue(q) => p = q,
            ControlFlow::Break(q) => return q,
        }
    }
    p
}

// The answer of a collection that is so far.
pub fn answer(tallies: &[u64], workers: u32, p: Progress) -> Marked
    requires { Countable tallies.now workers p }
    ensures { (x : Countable tallies.now workers p) → row (Ok result) ≡ row_of p x.tallies }
{
    let all = counts::counted(tallies, workers, p);
    if p.running == 0 {
        Marked::Finished(all)
    } else {
        Marked::Unfinished(all)
    }
}

// W, D, K and the length of a stretch, for n objects.
pub fn setup_of(settings: Settings, objects: usize) -> Setup
    requires { objects ≤ most_objects }
    ensures { result ≡ setup_for settings objects }
{
    Setup {
        workers: settings.workers,
        batch: settings.batch,
        cutoff: settings.cutoff,
        stretch: places::stretch(objects),
    }
}

// The marker's call.
pub fn mark(
    offsets: &[u32],
    targets: &[u32],
    starts: &[u32],
    settings: Settings,
    schedule: &[u8],
    marks: &mut [u8],
    work: &mut [u32],
    tallies: &mut [u64],
) -> Result<Marked, Refusal>
    ensures { Answered (call_of offsets.now targets.now starts.now settings schedule.now)
        marks.old work.old tallies.old result marks.new work.new tallies.new }
{
    let lengths = Lengths {
        marks: marks.len(),
        work: work.len(),
        tallies: tallies.len(),
        saved: None,
    };
    let setup = accept(offsets, targets, starts, settings, schedule, lengths)?;
    let mut registers = [0u32; registers::ALL];
    let regs = &mut registers[..registers::BLOCK * setup.workers as usize];
    let begun = start::afresh(offsets, targets, starts, setup, marks, work, tallies, regs);
    let p = take_turns(
        offsets, targets, setup, schedule, marks, work, tallies, regs, begun,
    );
    settle(setup, work, regs);
    Ok(answer(tallies, setup.workers, p))
}
