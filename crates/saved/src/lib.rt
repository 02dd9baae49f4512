// A collection that was stopped, as words: what is read from them. The definitions stand in specs/; `saved_theorems` has what is
// proved of them.
#![tactic(auto)]

ghost use Rattle.std.specs.Prelude.{◌≡◌, ◌+◌, ◌*◌, ◌≤◌, ◌<◌, length};
ghost use Rattle.desk.specs.Limits.{most_workers};
ghost use Rattle.desk.specs.Lengths.{workers_place, worker_word_count};
ghost use Rattle.saved.specs.Layout.{number_at, worker_word};
ghost use Rattle.saved.specs.Words.{words_at};

use desk::places;

// Where the words of a worker stand among its four.
const STATUS: usize = 0;

const CELL: usize = 1;

const SINCE: usize = 2;

const BATCH: usize = 3;

// The words of a worker.
// Stays (1): the status is a number, since words are read before they are tested, and may tell of no worker (SPECIFICATION 8.1).
#[derive(Clone, Copy, Debug, PartialEq, Eq)]
pub struct WorkerWords {
    pub status: u32,
    pub cell: u32,
    pub since: u32,
    pub batch: u32,
}

impl WorkerWords {
    // Those that stand from a place on.
    pub fn at(words: &[u32], at: usize) -> WorkerWords
        requires { at + worker_word_count ≤ length words.now }
        ensures { result ≡ words_at words.now at }
    {
        WorkerWords {
            status: words[at + STATUS],
            cell: words[at + CELL],
            since: words[at + SINCE],
            batch: words[at + BATCH],
        }
    }

    // Those of worker b among the saved words.
    pub fn of(saved: &[u32], b: u32) -> WorkerWords
        requires { (b < most_workers) × (workers_place + worker_word_count * b + worker_word_count ≤ length saved.now) }
        ensures status { result.status ≡ worker_word saved.now b 0 }
        ensures cell { result.cell ≡ worker_word saved.now b 1 }
        ensures since { result.since ≡ worker_word saved.now b 2 }
        ensures batch { result.batch ≡ worker_word saved.now b 3 }
    {
        WorkerWords::at(saved, places::WORKERS + places::WORKER * b as usize)
    }
}

// The number of two words, the low one first.
pub fn number(words: &[u32], at: usize) -> u64
    requires { at + 1 < length words.now }
    ensures { result ≡ number_at words.now at }
{
    let low = u64::from(words[at]);
    let high = u64::from(words[at + 1]);
    low + 4294967296 * high
}
