// A collection that was stopped, taken up again.
#![tactic(auto)]

ghost use Rattle.std.specs.Prelude.{◌≤◌};
ghost use Rattle.laws.specs.Decides.{Decides};
ghost use Rattle.graph.specs.Limits.{most_references};
ghost use Rattle.marker.specs.Answer.{call_of, row};
ghost use Rattle.resume.specs.Answer.{marked_of, sound_of, Continued, Low, LowSettings};

use checkpoint::{restore, save};
use desk::Settings;
use machine::Counts;
use marker::Marked;
use refusal::Refusal;
use worker::registers;

// What a collection that was taken up comes to, and whether the words that are saved are sound.
#[derive(Clone, Copy)]
pub struct Resumed {
    pub marked: Marked,
    pub sound: bool,
}

// Whether moved and handed are within their bounds (SPECIFICATION 8.2, 20 and 21).
fn counts_low(references: u64, settings: Settings, counts: Counts) -> bool
    requires { (references ≤ most_references) × LowSettings settings }
    ensures { Decides result (Low references settings.workers settings.cutoff counts) }
{
    let most = 7 * references + settings.workers as u64;
    counts.moved <= most && counts.handed <= 3 * references / settings.cutoff as u64
}

// The same of an answer.
fn answer_low(references: u64, settings: Settings, answer: Marked) -> bool
    requires { (references ≤ most_references) × LowSettings settings }
    ensures { Decides result (Low references settings.workers settings.cutoff (row (Ok answer)).counts) }
{
    match answer {
        Marked::Finished(counts) | Marked::Unfinished(counts) => {
            counts_low(references, settings, counts)
        }
    }
}

// Takes a saved collection up, makes the turns of the schedule, and saves it again.
pub fn resume(
    offsets: &[u32],
    targets: &[u32],
    starts: &[u32],
    settings: Settings,
    schedule: &[u8],
    marks: &mut [u8],
    work: &mut [u32],
    tallies: &mut [u64],
    saved: &mut [u32],
) -> Result<Resumed, Refusal>
    ensures { Continued (call_of offsets.now targets.now starts.now settings schedule.now)
        marks.old work.old tallies.old saved.old (marked_of result) (sound_of result) marks.new work.new tallies.new saved.new }
{
    let lengths = begin::lent(marks.len(), work.len(), tallies.len(), saved.len());
    let setup = marker::accept(offsets, targets, starts, settings, schedule, lengths)?;
    if !validate::is_sound(offsets, targets, starts, settings, saved) {
        return Err(Refusal::Saved);
    }
    let mut registers = [0u32; registers::ALL];
    let regs = &mut registers[..registers::BLOCK * setup.workers as usize];
    let begun = restore::restore(targets, setup, saved, marks, work, tallies, regs);
    let p = marker::take_turns(
        offsets, targets, setup, schedule, marks, work, tallies, regs, begun,
    );
    marker::settle(setup, work, regs);
    save::save(setup.workers, marks, work, tallies, regs, p, saved);
    let marked = marker::answer(tallies, setup.workers, p);
    let sound = answer_low(targets.len() as u64, settings, marked);
    Ok(Resumed { marked, sound })
}
