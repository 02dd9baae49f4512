// A collection that can be stopped: how many words it is saved in, and the call that begins one.
#![tactic(auto)]

ghost use Rattle.std.specs.Prelude.{◌≡◌};
ghost use Rattle.desk.specs.Length.{length_row};
ghost use Rattle.marker.specs.Answer.{call_of};
ghost use Rattle.saved.specs.Calls.{saving_lengths};
ghost use Rattle.begin.specs.Answer.{length_for, Begun};

use checkpoint::save;
use desk::{Lengths, Settings, places};
use marker::{Marked, start};
use refusal::Refusal;
use worker::registers;

// How many words a collection of n objects with W workers takes when it is saved.
pub fn saved_words(objects: u32, workers: u32) -> Result<u64, Refusal>
    ensures { length_row result ≡ length_for objects workers }
{
    if checks::workers_outside(workers) {
        return Err(Refusal::Setting);
    }
    if checks::objects_outside(objects) {
        return Err(Refusal::Count);
    }
    Ok(places::saved(objects as usize, workers) as u64)
}

// The lengths of the buffers of a call that saves.
pub fn lent(marks: usize, work: usize, tallies: usize, saved: usize) -> Lengths
    ensures { result ≡ saving_lengths marks work tallies saved }
{
    Lengths {
        marks,
        work,
        tallies,
        saved: Some(saved),
    }
}

// Begins a collection, makes the turns of the schedule, and saves it.
pub fn begin(
    offsets: &[u32],
    targets: &[u32],
    starts: &[u32],
    settings: Settings,
    schedule: &[u8],
    marks: &mut [u8],
    work: &mut [u32],
    tallies: &mut [u64],
    saved: &mut [u32],
) -> Result<Marked, Refusal>
    ensures { Begun (call_of offsets.now targets.now starts.now settings schedule.now)
        marks.old work.old tallies.old saved.old result marks.new work.new tallies.new saved.new }
{
    let lengths = lent(marks.len(), work.len(), tallies.len(), saved.len());
    let setup = marker::accept(offsets, targets, starts, settings, schedule, lengths)?;
    let mut registers = [0u32; registers::ALL];
    let regs = &mut registers[..registers::BLOCK * setup.workers as usize];
    let begun = start::afresh(offsets, targets, starts, setup, marks, work, tallies, regs);
    let p = marker::take_turns(
        offsets, targets, setup, schedule, marks, work, tallies, regs, begun,
    );
    marker::settle(setup, work, regs);
    save::save(setup.workers, marks, work, tallies, regs, p, saved);
    Ok(marker::answer(tallies, setup.workers, p))
}
