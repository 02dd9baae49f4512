// The turn of an idle worker.
#![tactic(auto)]

ghost use Rattle.std.specs.Prelude.{List, ℕ};
ghost use Rattle.step.specs.Held.{memory};
ghost use Rattle.step.specs.Outcome.{progress_of, ToldOver};
ghost use Rattle.step.specs.Turned.{Ready, Does, DoesAny};
ghost use Rattle.idle.specs.Idle.{IsIdle, IsHolder, IsAsking};

use std::ops::ControlFlow;
use step::{Outcome, Progress, Step, counts, ring};
use worker::registers;

// The worker asks the named worker, if that is busy and its cell is empty.
fn ask(regs: &mut [u32], step: Step) -> Progress
    requires { (marks : List ℕ) × ((work : List ℕ) × ((tallies : List ℕ)
        × Ready (IsAsking step.entry.worker) step.setup (memory marks work tallies regs.old step.progress))) }
    ensures { (marks work tallies : List ℕ) → Does (IsAsking step.entry.worker) step.setup step.entry.worker step.entry.named
        (memory marks work tallies regs.old step.progress)
        (memory marks work tallies regs.new result) }
{
    let b = step.entry.worker as u32;
    let v = step.entry.named as u32;
    let p = step.progress;
    if step.setup.workers <= v {
        return p;
    }
    let r = registers::load(regs, v);
    let status = r.status;
    let cell = r.cell;
    if status < registers::POLL {
        return p;
    }
    if cell != 0 {
        return p;
    }
    registers::put(regs, v, registers::CELL, b + 1);
    registers::put(regs, b, registers::STATUS, registers::ASKING);
    counts::moved(p, 0, 0)
}

// The worker holds the token. Worker 0 ends, and the collection with it, if the token and the worker are
// white; else it sends a white one. Any other worker passes it on. No other worker is looked at.
fn pass(regs: &mut [u32], step: Step) -> Progress
    requires { (marks : List ℕ) × ((work : List ℕ) × ((tallies : List ℕ)
        × Ready (IsHolder step.entry.worker) step.setup (memory marks work tallies regs.old step.progress))) }
    ensures { (marks work tallies : List ℕ) → DoesAny (IsHolder step.entry.worker) step.setup step.entry.worker
        (memory marks work tallies regs.old step.progress)
        (memory marks work tallies regs.new result) }
{
    let b = step.entry.worker as u32;
    let p = step.progress;
    let ring = p.ring;
    if b == 0 {
        let token = ring.token;
        let own = ring::shade(ring, b);
        if token + own == 0 {
            registers::put(regs, b, registers::STATUS, registers::ENDED);
            return counts::ended(p);
        }
    }
    let next = ring::passed(ring, step.setup.workers, b);
    counts::ringed(p, next)
}

// The worker passes the token, if it holds it: worker 0 has not ended then. Else it ends if worker 0 has
// ended, and asks, if not.
pub fn idle_turn(regs: &mut [u32], step: Step) -> Outcome
    requires { (marks : List ℕ) × ((work : List ℕ) × ((tallies : List ℕ)
        × Ready (IsIdle step.entry.worker) step.setup (memory marks work tallies regs.old step.progress))) }
    ensures by_index { (marks work tallies : List ℕ) → Does (IsIdle step.entry.worker) step.setup step.entry.worker step.entry.named
        (memory marks work tallies regs.old step.progress)
        (memory marks work tallies regs.new (progress_of result)) }
    ensures told_over { ToldOver result }
{
    let b = step.entry.worker as u32;
    if step.progress.ring.holder == b as u64 {
        return step::ending(pass(regs, step));
    }
    let first = registers::load(regs, 0);
    let status = first.status;
    if status == registers::ENDED {
        registers::put(regs, b, registers::STATUS, registers::ENDED);
        return step::ending(counts::ended(step.progress));
    }
    ControlFlow::Continue(ask(regs, step))
}
