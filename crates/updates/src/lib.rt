// References that come and go (SPECIFICATION 12): what the calls that add them and take them out share. The
// checks and promises of both stand in specs/.
#![tactic(auto)]

ghost use Rattle.std.specs.Prelude.{◌≡◌, ◌≤◌};
ghost use Rattle.graph.specs.Limits.{most_objects};
ghost use Rattle.desk.specs.Length.{length_row};
ghost use Rattle.updates.specs.Call.{length_for, lengths, lengths_wrong};

use refusal::Refusal;

// How long the buffers are that both calls are lent.
#[derive(Clone, Copy)]
pub struct Lengths {
    pub offsets: usize,
    pub targets: usize,
    pub marks: usize,
    pub work: usize,
}

impl Lengths {
    // Those of these buffers.
    pub fn of(offsets: &[u32], targets: &[u32], marks: &[u8], work: &[u32]) -> Lengths
        ensures { result ≡ lengths offsets.now targets.now marks.now work.now }
    {
        Lengths {
            offsets: offsets.len(),
            targets: targets.len(),
            marks: marks.len(),
            work: work.len(),
        }
    }
}

// The number of work words for n objects, in either call: the list of objects to follow.
// Stays (2): like `hops::hop_words` by another factor; either is a test and a product, which a common one would not shorten.
pub fn update_words(objects: u32) -> Result<u64, Refusal>
    ensures { length_row result ≡ length_for objects }
{
    if checks::objects_outside(objects) {
        return Err(Refusal::Count);
    }
    Ok(u64::from(objects))
}

// Check 7: the lengths of the buffers that both calls are lent.
pub fn lengths_wrong(n: usize, targets: usize, l: Lengths) -> bool
    requires { n ≤ most_objects }
    ensures { result ≡ lengths_wrong n targets l }
{
    l.offsets != n + 1 || l.targets != targets || l.marks != n || l.work != n
}
