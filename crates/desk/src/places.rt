// The lent buffers of a collection, and where the parts of the saved words stand (SPECIFICATION 8.1).
ghost use Rattle.std.specs.Prelude.{◌≡◌, ◌≤◌};
ghost use Rattle.graph.specs.Limits.{most_objects};
ghost use Rattle.desk.specs.Limits.{most_workers};
ghost use Rattle.desk.specs.Lengths.{stretch_length, tallies_place, marks_place, saved_length};

// The words of a worker's tally: followed, won, lost and handed.
pub const TALLY: usize = 4;

// How many counts there are.
pub const COUNTS: usize = 6;

// The number of the form, which stands first.
pub const FORM: u32 = 2;

// The counts, two words each.
pub const COUNTS_PLACE: usize = 1;

// The token ring: holder, the token's colour, and the black workers as bits.
pub const RING: usize = COUNTS_PLACE + 2 * COUNTS;

// Status, cell, since and batch of each worker.
pub const WORKERS: usize = RING + 3;

pub const WORKER: usize = 4;

// The length of a worker's stretch of the work words.
pub fn stretch(objects: usize) -> usize
    requires { objects ≤ most_objects }
    ensures { result ≡ stretch_length objects }
{
    2 * objects + 4
}

// Where the tallies begin, with so many workers; they take two words for each of their own.
pub fn tallies(workers: u32) -> usize
    requires { workers ≤ most_workers }
    ensures { result ≡ tallies_place workers }
{
    WORKERS + WORKER * workers as usize
}

// Where the marks begin.
pub fn marks(workers: u32) -> usize
    requires { workers ≤ most_workers }
    ensures { result ≡ marks_place workers }
{
    tallies(workers) + 2 * TALLY * workers as usize
}

// How many saved words there are.
pub fn saved(objects: usize, workers: u32) -> usize
    requires { (objects ≤ most_objects) × (workers ≤ most_workers) }
    ensures { result ≡ saved_length objects workers }
{
    marks(workers) + objects + workers as usize * stretch(objects)
}
