// The call `mark_all` (SPECIFICATION 15): a collection that is sure to finish, without a schedule.
#![tactic(auto)]

ghost use Rattle.std.specs.Prelude.{[]};
ghost use Rattle.step.specs.Held.{memory};
ghost use Rattle.step.specs.Turned.{Ready};
ghost use Rattle.marker.specs.Answer.{call_of};
ghost use Rattle.rounds.specs.Whole.{AllMarked, IsStart, DoesRounds};

use desk::{Lengths, Settings};
use marker::{Marked, start};
use refusal::Refusal;
use rounds::Begun;
use step::Progress;
use worker::registers;

// Rounds, until all workers have ended.
// Stays (3): it ends when nobody is running; `i` counts the rounds, by which it is proved to end.
fn take_rounds(
    offsets: &[u32],
    targets: &[u32],
    marks: &mut [u8],
    work: &mut [u32],
    tallies: &mut [u64],
    regs: &mut [u32],
    begun: Begun,
) -> Progress
    requires { Ready (IsStart begun.setup offsets.now targets.now) begun.setup
        (memory marks.old work.old tallies.old regs.old begun.progress) }
    ensures { DoesRounds begun.setup offsets.now targets.now
        (memory marks.old work.old tallies.old regs.old begun.progress)
        (memory marks.new work.new tallies.new regs.new result) }
{
    let setup = begun.setup;
    let workers = setup.workers;
    let size = 2 * workers as usize;
    let mut round = [0u8; rounds::MOST];
    rounds::put_round(&mut round[..size], workers);
    let mut p = begun.progress;
    let mut i: u32 = 0;
    while p.running != 0 {
        p = marker::take_turns(
            offsets,
            targets,
            setup,
            &round[..size],
            marks,
            work,
            tallies,
            regs,
            p,
        );
        i += 1;
    }
    p
}

// All turns: the only worker's in rows, or rounds of several.
fn take_all(
    offsets: &[u32],
    targets: &[u32],
    marks: &mut [u8],
    work: &mut [u32],
    tallies: &mut [u64],
    regs: &mut [u32],
    begun: Begun,
) -> Progress
    requires { Ready (IsStart begun.setup offsets.now targets.now) begun.setup
        (memory marks.old work.old tallies.old regs.old begun.progress) }
    ensures { DoesRounds begun.setup offsets.now targets.now
        (memory marks.old work.old tallies.old regs.old begun.progress)
        (memory marks.new work.new tallies.new regs.new result) }
{
    if begun.setup.workers == 1 {
        alone::take_turns(offsets, targets, marks, work, tallies, regs, begun)
    } else {
        take_rounds(offsets, targets, marks, work, tallies, regs, begun)
    }
}

// A whole collection in one call.
pub fn mark_all(
    offsets: &[u32],
    targets: &[u32],
    starts: &[u32],
    settings: Settings,
    marks: &mut [u8],
    work: &mut [u32],
    tallies: &mut [u64],
) -> Result<Marked, Refusal>
    ensures { AllMarked (call_of offsets.now targets.now starts.now settings [])
        marks.old work.old tallies.old result marks.new work.new tallies.new }
{
    let lengths = Lengths {
        marks: marks.len(),
        work: work.len(),
        tallies: tallies.len(),
        saved: None,
    };
    let setup = marker::accept(offsets, targets, starts, settings, &[], lengths)?;
    let mut registers = [0u32; registers::ALL];
    let regs = &mut registers[..registers::BLOCK * setup.workers as usize];
    let progress = start::afresh(offsets, targets, starts, setup, marks, work, tallies, regs);
    let begun = Begun { setup, progress };
    let p = take_all(offsets, targets, marks, work, tallies, regs, begun);
    marker::settle(setup, work, regs);
    Ok(marker::answer(tallies, setup.workers, p))
}
