// An index of the offsets: for each block of references an object near those that they leave. It is a guess, which is tested
// where it is used; so nothing is promised of it.
ghost use Rattle.std.specs.Prelude.{◌≡◌, ◌+◌, ◌<◌, length};
ghost use Rattle.frontier.specs.Index.{Indexable, index_blocks};

// The references of a block, and the blocks of an index.
const BLOCK: u32 = 128;

pub const BLOCKS: usize = graph::MOST_REFERENCES / BLOCK as usize + 1;

// From so many references on an index is made.
pub const INDEXED: usize = 262144;

// How many offsets behind a block's object are looked at.
const NEAR: usize = 16;

// Each object at the first block that begins with its references or behind them.
fn place(offsets: &[u32], index: &mut [u16])
    requires { Indexable offsets.now × (length index.old ≡ index_blocks) }
{
    let objects = offsets.len() - 1;
    for (v, offset) in offsets[..objects].iter().enumerate() {
        let block = (*offset + (BLOCK - 1)) / BLOCK;
        index[block as usize] = v as u16;
    }
}

// Each entry as large as the largest before it.
fn level(index: &mut [u16]) {
    let mut last: u16 = 0;
    for entry in index.iter_mut() {
        last = last.max(*entry);
        *entry = last;
    }
}

// The last object whose references begin at or before each block.
pub fn fill(offsets: &[u32], index: &mut [u16])
    requires { Indexable offsets.now × (length index.old ≡ index_blocks) }
{
    place(offsets, index);
    level(index);
}

// The object so many places further on as offsets behind it are at or before e. All are looked at, so that no jump depends on them.
fn count_on(offsets: &[u32], e: u32, low: usize) -> usize
    requires { low + 17 < length offsets.now }
    ensures { result + 1 < length offsets.now }
{
    let mut passed: u32 = 0;
    for offset in &offsets[low + 1..low + 1 + NEAR] {
        passed += u32::from(*offset <= e);
    }
    low + passed as usize
}

// An object, which reference e leaves if the index is that of the offsets and few objects begin in its block.
pub fn guess(offsets: &[u32], e: u32, index: &[u16]) -> usize
    requires { 1 < length offsets.now }
    ensures { result + 1 < length offsets.now }
{
    let block = (e / BLOCK) as usize;
    if index.len() <= block {
        return 0;
    }
    let low = usize::from(index[block]);
    if offsets.len() <= low + NEAR + 1 {
        return 0;
    }
    count_on(offsets, e, low)
}
