// A turn of the machine on the lent memories: marks, work memory, tallies and registers.
#![tactic(auto)]

ghost use Rattle.step.specs.Held.{memory};
ghost use Rattle.step.specs.Outcome.{progress_of, ToldOver};
ghost use Rattle.step.specs.Turned.{Ready, Does};
ghost use Rattle.turns.specs.Lent.{IsLent};

use std::ops::ControlFlow;
use step::{Outcome, Step, counts};
use worker::registers;

// One turn.
// Stays (5): each kind of turn is lent only what it may write, as idling the registers alone; one struct would lend all to each.
// Stays (7): which step is run is a word of the lent registers, where no closure can stand.
pub fn turn(
    offsets: &[u32],
    targets: &[u32],
    marks: &mut [u8],
    work: &mut [u32],
    tallies: &mut [u64],
    regs: &mut [u32],
    step: Step,
) -> Outcome
    requires { Ready (IsLent step.setup offsets.now targets.now step.entry.worker) step.setup
        (memory marks.old work.old tallies.old regs.old step.progress) }
    ensures does { Does (IsLent step.setup offsets.now targets.now step.entry.worker) step.setup
        step.entry.worker step.entry.named
        (memory marks.old work.old tallies.old regs.old step.progress)
        (memory marks.new work.new tallies.new regs.new (progress_of result)) }
    ensures told_over { ToldOver result }
{
    let b = step.entry.worker as u32;
    let r = registers::load(regs, b);
    let status = r.status;
    match status {
        registers::IDLE => idle::idle_turn(regs, step),
        registers::DENIED => {
            registers::put(regs, b, registers::STATUS, registers::IDLE);
            ControlFlow::Continue(counts::moved(step.progress, 0, 0))
        }
        registers::GIVEN => ControlFlow::Continue(follow::take_up(targets, regs, step)),
        registers::POLL => ControlFlow::Continue(poll::poll(work, tallies, regs, step)),
        registers::LOOK => ControlFlow::Continue(follow::look(
            targets, marks, work, tallies, regs, step,
        )),
        registers::CLAIM => ControlFlow::Continue(follow::claim(
            offsets, targets, marks, work, tallies, regs, step,
        )),
        _ => {
            let p = step.progress;
            ControlFlow::Continue(p)
        }
    }
}
