// A collection from saved words: marks, stretches, tallies and registers, and how far it is.
ghost use Rattle.std.specs.Prelude.{◌≡◌, ◌+◌, ◌*◌, ◌≤◌, length};
ghost use Rattle.desk.specs.Limits.{most_workers};
ghost use Rattle.desk.specs.Lengths.{counts_number, counts_place, ring_place, workers_place, worker_word_count};
ghost use Rattle.checkpoint.specs.Restoring.{running_in, ring_from, Telling, progress_from, part_of, Resumable, Resumes};
ghost use Rattle.checkpoint.specs.Copies.{numbers_of, Bytes};

use crate::{words, workers};
use desk::places;
use step::ring::Ring;
use step::{Progress, Setup, counts};
use worker::registers;

// How many of the workers whose words these are have not ended.
fn running(words: &[u32], workers: u32) -> u64
    requires { (length words.now ≡ worker_word_count * workers) × (workers ≤ most_workers) }
    ensures { result ≡ running_in words.now workers }
{
    let mut count = 0;
    for b in 0..workers {
        count += u64::from(words[places::WORKER * b as usize] != registers::ENDED);
    }
    count
}

// How far the collection is, from its saved counts and tallies, with so many running and this ring.
fn progress(numbers: &[u64], tallies: &[u64], workers: u32, running: u64, ring: Ring) -> Progress
    requires { Telling numbers.now tallies.now workers }
    ensures { (x : Telling numbers.now tallies.now workers) → result ≡ progress_from numbers.now x.tallies running ring }
{
    Progress {
        starts: numbers[0] - counts::total(tallies, workers, counts::WON),
        refused: numbers[3],
        moved: numbers[4],
        carrying: numbers[5],
        running,
        ring,
    }
}

// The token ring.
fn ring_from(saved: &[u32]) -> Ring
    requires { workers_place ≤ length saved.now }
    ensures { result ≡ ring_from saved.now }
{
    Ring {
        holder: u64::from(saved[places::RING]),
        token: u64::from(saved[places::RING + 1]),
        black: u64::from(saved[places::RING + 2]),
    }
}

// The counts.
fn counts_from(saved: &[u32], numbers: &mut [u64])
    requires { (ring_place ≤ length saved.now) × (length numbers.old ≡ counts_number) }
    ensures { numbers.new ≡ numbers_of (part_of counts_place (2 * counts_number) saved.now) counts_number }
{
    words::take_numbers(&saved[places::COUNTS_PLACE..places::RING], numbers);
}

// The tallies, from a place on.
fn tallies_from(saved: &[u32], at: usize, tallies: &mut [u64])
    requires { at + 2 * length tallies.old ≤ length saved.now }
    ensures { tallies.new ≡ numbers_of (part_of at (2 * length tallies.old) saved.now) (length tallies.old) }
{
    let end = at + 2 * tallies.len();
    words::take_numbers(&saved[at..end], tallies);
}

// The marks.
fn marks_from(saved: &[u32], at: usize, marks: &mut [u8])
    requires { (at + length marks.old ≤ length saved.now) × Bytes (part_of at (length marks.old) saved.now) }
    ensures { marks.new ≡ part_of at (length marks.old) saved.now }
{
    let end = at + marks.len();
    words::take_bytes(&saved[at..end], marks);
}

// Takes a saved collection into the lent buffers and the registers.
pub fn restore(
    targets: &[u32],
    setup: Setup,
    saved: &[u32],
    marks: &mut [u8],
    work: &mut [u32],
    tallies: &mut [u64],
    regs: &mut [u32],
) -> Progress
    requires { Resumable targets.now setup saved.now marks.old work.old tallies.old regs.old }
    ensures { Resumes targets.now setup saved.now marks.old work.old tallies.old regs.old
        marks.new work.new tallies.new regs.new result }
{
    let workers = setup.workers;
    let tallies_place = places::tallies(workers);
    let mut numbers = [0u64; places::COUNTS];
    counts_from(saved, &mut numbers);
    tallies_from(saved, tallies_place, tallies);
    marks_from(saved, places::marks(workers), marks);
    let words = &saved[places::WORKERS..tallies_place];
    let at = saved.len() - work.len();
    let stretches = &saved[at..];
    workers::take_workers(targets, words, stretches, workers, setup.stretch, regs);
    workers::put_runs(stretches, workers, setup.stretch, regs, work);
    progress(
        &numbers,
        tallies,
        workers,
        running(words, workers),
        ring_from(saved),
    )
}
