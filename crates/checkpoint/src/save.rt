// A collection to saved words, part by part.
ghost use Rattle.std.specs.Prelude.{◌≡◌, ◌+◌, ◌-◌, ◌*◌, ◌≤◌, length};
ghost use Rattle.laws.specs.Blocks.{laid};
ghost use Rattle.desk.specs.Lengths.{workers_place, tallies_place};
ghost use Rattle.step.specs.Held.{memory};
ghost use Rattle.saved.specs.Layout.{two_words, workers_words};
ghost use Rattle.checkpoint.specs.Workers.{Recorded};
ghost use Rattle.checkpoint.specs.Saving.{placed, Begins, head_words, Narrow, Savable, Saves};

use crate::{words, workers};
use desk::places;
use machine::Counts;
use step::ring::Ring;
use step::{Progress, counts};

// Numbers, two words each, from a place on.
fn numbers_at(numbers: &[u64], at: usize, saved: &mut [u32])
    requires { at + 2 * length numbers.now ≤ length saved.old }
    ensures { saved.new ≡ placed at (laid two_words numbers.now) saved.old }
{
    let end = at + 2 * numbers.len();
    words::put_numbers(numbers, &mut saved[at..end]);
}

// The words of all workers.
fn workers_at(regs: &[u32], workers: u32, saved: &mut [u32])
    requires { Recorded regs.now workers × (tallies_place workers ≤ length saved.old) }
    ensures { (x : Recorded regs.now workers) → saved.new ≡ placed workers_place (workers_words x.workers x.rested) saved.old }
{
    let end = places::tallies(workers);
    workers::put_workers(regs, workers, &mut saved[places::WORKERS..end]);
}

// The marks, a word each.
fn marks_at(marks: &[u8], at: usize, saved: &mut [u32])
    requires { at + length marks.now ≤ length saved.old }
    ensures { saved.new ≡ placed at marks.now saved.old }
{
    let end = at + marks.len();
    words::put_bytes(marks, &mut saved[at..end]);
}

// The stretches, which stand last.
fn work_at(work: &[u32], saved: &mut [u32])
    requires { length work.now ≤ length saved.old }
    ensures { saved.new ≡ placed (length saved.old - length work.now) work.now saved.old }
{
    let at = saved.len() - work.len();
    saved[at..].copy_from_slice(work);
}

// The number of the form, the counts and the token ring.
fn heads_at(counts: Counts, ring: Ring, saved: &mut [u32])
    requires { (workers_place ≤ length saved.old) × Narrow ring }
    ensures { Begins (length saved.old) (head_words counts ring) saved.new }
{
    let mut numbers = [0u64; places::COUNTS];
    counts::put_counts(counts, &mut numbers);
    saved[0] = places::FORM;
    numbers_at(&numbers, places::COUNTS_PLACE, saved);
    saved[places::RING] = ring.holder as u32;
    saved[places::RING + 1] = ring.token as u32;
    saved[places::RING + 2] = ring.black as u32;
}

// The number of the form, the counts, the token ring, each worker's words, the tallies, the marks and
// the stretches.
pub fn save(
    workers: u32,
    marks: &[u8],
    work: &[u32],
    tallies: &[u64],
    regs: &[u32],
    p: Progress,
    saved: &mut [u32],
)
    requires { Savable workers (memory marks.now work.now tallies.now regs.now p) saved.old }
    ensures { Saves workers (memory marks.now work.now tallies.now regs.now p) saved.old saved.new }
{
    heads_at(counts::counted(tallies, workers, p), p.ring, saved);
    workers_at(regs, workers, saved);
    numbers_at(tallies, places::tallies(workers), saved);
    marks_at(marks, places::marks(workers), saved);
    work_at(work, saved);
}
