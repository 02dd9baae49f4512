// The registers: a block of words for each worker, laid end to end.
ghost use Rattle.std.specs.Prelude.{◌≡◌, ◌<◌};
ghost use Rattle.worker.specs.Registers.{Room, block_at, put_at, step_words, begin_words, puts_at, store_at};

// A worker's status. From GIVEN on it carries references, from POLL on it is busy.
// Stays (1): a status is a word of the saved words (SPECIFICATION 8.1) and is asked for by its order; an enum would be turned
// into that word at each of these places, and back only in `turns::turn`.
pub const IDLE: u32 = 0;

pub const ASKING: u32 = 1;

pub const DENIED: u32 = 2;

pub const ENDED: u32 = 3;

pub const GIVEN: u32 = 4;

pub const POLL: u32 = 5;

pub const LOOK: u32 = 6;

pub const CLAIM: u32 = 7;

// Where in a block each word stands, and how long a block is. The batch, which a poll writes alone,
// stands apart from the words that following adds to: a processor waits where it reads two words
// at once of which one was just written.
pub const STATUS: usize = 0;

pub const BATCH: usize = 1;

pub const CELL: usize = 2;

pub const SINCE: usize = 3;

pub const CARRIED: usize = 4;

pub const USED: usize = 5;

const FIRST: usize = 6;

pub const END: usize = 7;

const TARGET: usize = 8;

pub const BLOCK: usize = 9;

// The registers of the most workers.
// Stays (6): no heap; a call keeps them itself, and uses as many as it has workers.
pub const ALL: usize = BLOCK * 16;

// The words of a block: status; batch; cell (0 empty, else the asker and 1); since as it will be
// when the batch is done; how many references the runs hold beyond the batch; how many words of the stretch the runs below the first take; the first
// run, from its next reference to its end; and where that reference leads.
#[derive(Clone, Copy)]
pub struct Block {
    pub status: u32,
    pub batch: u32,
    pub cell: u32,
    pub since: u32,
    pub carried: u32,
    pub used: u32,
    pub first: u32,
    pub end: u32,
    pub target: u32,
}

// Worker b's block.
pub fn load(regs: &[u32], b: u32) -> Block
    requires { Room regs.now b }
    ensures { result ≡ block_at regs.now b }
{
    let at = BLOCK * (b as usize);
    Block {
        status: regs[at],
        batch: regs[at + BATCH],
        cell: regs[at + CELL],
        since: regs[at + SINCE],
        carried: regs[at + CARRIED],
        used: regs[at + USED],
        first: regs[at + FIRST],
        end: regs[at + END],
        target: regs[at + TARGET],
    }
}

// Writes it anew.
pub fn store(regs: &mut [u32], b: u32, r: Block)
    requires { Room regs.old b }
    ensures { regs.new ≡ store_at regs.old b r }
{
    let at = BLOCK * (b as usize);
    regs[at] = r.status;
    regs[at + BATCH] = r.batch;
    regs[at + CELL] = r.cell;
    regs[at + SINCE] = r.since;
    regs[at + CARRIED] = r.carried;
    regs[at + USED] = r.used;
    regs[at + FIRST] = r.first;
    regs[at + END] = r.end;
    regs[at + TARGET] = r.target;
}

// One word of it.
pub fn put(regs: &mut [u32], b: u32, word: usize, x: u32)
    requires { Room regs.old b × (word < 9) }
    ensures { regs.new ≡ put_at regs.old b word x }
{
    regs[BLOCK * (b as usize) + word] = x;
}

// The words that change when the next reference of a run comes up.
pub fn step(regs: &mut [u32], b: u32, status: u32, batch: u32, first: u32, target: u32)
    requires { Room regs.old b }
    ensures { regs.new ≡ puts_at regs.old b (step_words status batch first target) }
{
    let at = BLOCK * (b as usize);
    regs[at + STATUS] = status;
    regs[at + BATCH] = batch;
    regs[at + FIRST] = first;
    regs[at + TARGET] = target;
}

// The words that change when a batch begins.
pub fn begin(regs: &mut [u32], b: u32, batch: u32, since: u32, carried: u32)
    requires { Room regs.old b }
    ensures { regs.new ≡ puts_at regs.old b (begin_words batch since carried) }
{
    let at = BLOCK * (b as usize);
    regs[at + STATUS] = LOOK;
    regs[at + BATCH] = batch;
    regs[at + SINCE] = since;
    regs[at + CARRIED] = carried;
}
