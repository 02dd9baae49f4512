// The workers' own words: status, cell, since and batch.
ghost use Rattle.std.specs.Prelude.{◌≡◌, ◌<◌};
ghost use Rattle.laws.specs.Decides.{Decides};
ghost use Rattle.desk.specs.Limits.{most_workers};
ghost use Rattle.protocol.specs.Heads.{Head, HeadsFound, WorkersThere, holders, CellsSound};

use saved::WorkerWords;
use worker::registers;

// What the words of all workers come to: how many have ended, and the sum of their sinces.
#[derive(Clone, Copy, Debug, PartialEq, Eq)]
pub struct Heads {
    pub ended: u64,
    pub since: u64,
}

// Whether the words are those of a worker, with so many workers and the largest batch.
fn head_sound(head: WorkerWords, workers: u32, most: u32) -> bool
    ensures { Decides result (Head workers most head.status head.cell head.since head.batch) }
{
    head.status <= registers::CLAIM
        && head.cell <= workers
        && head.batch <= most
        && (head.batch == 0) == (head.status <= registers::POLL)
        && (head.cell == 0 || registers::POLL <= head.status)
        && (head.since == 0 || head.status != registers::GIVEN)
}

// All workers' words; nothing where those of one are not sound.
pub fn check_heads(saved: &[u32], workers: u32, most: u32) -> Option<Heads>
    requires { WorkersThere workers saved.now }
    ensures { HeadsFound workers most saved.now result }
{
    let mut ended = 0;
    let mut since = 0;
    for b in 0..workers {
        let head = WorkerWords::of(saved, b);
        if !head_sound(head, workers, most) {
            return None;
        }
        ended += u64::from(head.status == registers::ENDED);
        since += u64::from(head.since);
    }
    Some(Heads { ended, since })
}

// How many cells hold asker a.
fn holders_of(saved: &[u32], workers: u32, a: u32) -> u32
    requires { WorkersThere workers saved.now × (a < most_workers) }
    ensures { result ≡ holders saved.now a workers }
{
    let mut found = 0;
    for b in 0..workers {
        found += u32::from(WorkerWords::of(saved, b).cell == a + 1);
    }
    found
}

// Whether each worker that is asking without a reply is in one cell, and no other is in any.
pub fn cells_sound(saved: &[u32], workers: u32) -> bool
    requires { WorkersThere workers saved.now }
    ensures { Decides result (CellsSound workers saved.now) }
{
    for a in 0..workers {
        let status = WorkerWords::of(saved, a).status;
        let wanted = u32::from(status == registers::ASKING);
        if holders_of(saved, workers, a) != wanted {
            return false;
        }
    }
    true
}
