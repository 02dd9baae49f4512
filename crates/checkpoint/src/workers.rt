// Each worker's words: from its block of the registers to the saved words, and back.
ghost use Rattle.std.specs.Prelude.{◌≡◌, ◌+◌, ◌*◌, ◌≤◌, ◌<◌, ◌^◌, length};
ghost use Rattle.desk.specs.Limits.{most_workers};
ghost use Rattle.desk.specs.Lengths.{worker_word_count};
ghost use Rattle.machine.specs.Run.{carried};
ghost use Rattle.worker.specs.Registers.{status_poll};
ghost use Rattle.saved.specs.Layout.{runs_in};
ghost use Rattle.checkpoint.specs.Workers.{words_of, Recorded, Records, measures, saved_at, SomeRestorable, Restores, AllRestorable, AllRestored, Puttable, RunsPut};

use crate::words;
use desk::places;
use saved::WorkerWords;
use worker::registers;
use worker::registers::Block;

// What a block says of the words of a worker. A busy worker's since is brought forward by its batch; one that is not
// busy has neither cell nor batch.
fn saved_of(r: Block) -> WorkerWords
    requires { status_poll ≤ r.status → r.batch ≤ r.since }
    ensures { result ≡ words_of r }
{
    let status = r.status;
    if status < registers::POLL {
        return WorkerWords {
            status,
            cell: 0,
            since: r.since,
            batch: 0,
        };
    }
    WorkerWords {
        status,
        cell: r.cell,
        since: r.since - r.batch,
        batch: r.batch,
    }
}

// Writes those of all workers.
pub fn put_workers(regs: &[u32], workers: u32, out: &mut [u32])
    requires { Recorded regs.now workers × (length out.old ≡ worker_word_count * workers) }
    ensures { Records regs.now workers out.new }
{
    for b in 0..workers {
        let w = saved_of(registers::load(regs, b));
        let at = places::WORKER * b as usize;
        out[at] = w.status;
        out[at + 1] = w.cell;
        out[at + 2] = w.since;
        out[at + 3] = w.batch;
    }
}

// How many words the runs of a stretch take, and how many references they hold.
#[derive(Clone, Copy, Debug, PartialEq, Eq)]
pub struct Extent {
    pub words: u32,
    pub carried: u32,
}

// Goes over the pairs of a stretch up to the first that is no run.
fn measure(s: &[u32]) -> Extent
    requires { (carried (runs_in s.now) < 2 ^ 32) × (length s.now < 2 ^ 32) }
    ensures { measures s.now result }
{
    let mut carried = 0;
    let (pairs, _) = s.as_chunks::<2>();
    for (i, &[first, end]) in pairs.iter().enumerate() {
        if end <= first {
            return Extent {
                words: 2 * i as u32,
                carried,
            };
        }
        carried += end - first;
    }
    Extent {
        words: 2 * pairs.len() as u32,
        carried,
    }
}

// The block of a worker whose saved words these are, with the stretch s.
fn block_of(targets: &[u32], s: &[u32], w: WorkerWords) -> Block
    requires { SomeRestorable targets.now s.now w }
    ensures { Restores targets.now s.now w result }
{
    let status = w.status;
    if status < registers::GIVEN {
        return Block {
            status,
            batch: 0,
            cell: 0,
            since: w.since,
            carried: 0,
            used: 0,
            first: 0,
            end: 0,
            target: 0,
        };
    }
    let m = measure(s);
    let used = m.words - 2;
    let at = used as usize;
    let first = s[at];
    Block {
        status,
        batch: w.batch,
        cell: w.cell,
        since: w.since + w.batch,
        carried: m.carried - w.batch,
        used,
        first,
        end: s[at + 1],
        target: targets[first as usize],
    }
}

// The saved words of worker b.
fn saved_at(words: &[u32], b: u32) -> WorkerWords
    requires { (worker_word_count * b + worker_word_count ≤ length words.now) × (b < most_workers) }
    ensures { result ≡ saved_at words.now b }
{
    WorkerWords::at(words, places::WORKER * b as usize)
}

// The blocks of all workers, from the words and the stretches that are saved of them.
pub fn take_workers(
    targets: &[u32],
    words: &[u32],
    stretches: &[u32],
    workers: u32,
    len: usize,
    regs: &mut [u32],
)
    requires { AllRestorable targets.now words.now stretches.now regs.old workers len }
    ensures { AllRestored targets.now words.now stretches.now regs.old workers len regs.new }
{
    for b in 0..workers {
        let w = saved_at(words, b);
        let from = b as usize * len;
        let r = block_of(targets, &stretches[from..from + len], w);
        registers::store(regs, b, r);
    }
}

// The words of the runs below each worker's first, as its block tells, from the saved stretches into the work memory. What stands
// behind them there is not written.
pub fn put_runs(stretches: &[u32], workers: u32, len: usize, regs: &[u32], work: &mut [u32])
    requires { Puttable stretches.now regs.now work.old workers len }
    ensures { RunsPut stretches.now regs.now workers len work.new }
{
    for b in 0..workers {
        let r = registers::load(regs, b);
        let count = len.min(r.used as usize);
        let from = b as usize * len;
        let stretch = &stretches[from..from + len];
        words::copy_first(stretch, count, &mut work[from..from + len]);
    }
}
