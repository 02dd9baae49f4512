// Hops: for each object the least number of references from a start. The call checks its inputs as
// the marker does its own.
#![tactic(auto)]

ghost use Rattle.std.specs.Prelude.{◌≡◌, not, ◌||◌, ◌≤◌, eqb};
ghost use Rattle.graph.specs.Limits.{most_objects};
ghost use Rattle.desk.specs.Length.{length_row};
ghost use Rattle.hops.specs.Call.{work_words, length_for, Finds, Answered};

use refusal::{Checked, Refusal};

// The number of work words for n objects: two links for each.
pub fn hop_words(objects: u32) -> Result<u64, Refusal>
    ensures { length_row result ≡ length_for objects }
{
    if checks::objects_outside(objects) {
        return Err(Refusal::Count);
    }
    Ok(2 * u64::from(objects))
}

// Check 7: the lent buffers' lengths.
fn buffers_wrong(n: usize, hops: usize, work: usize) -> bool
    requires { n ≤ most_objects }
    ensures { result ≡ (not (eqb hops n) || not (eqb work (work_words n))) }
{
    hops != n || work != 2 * n
}

// The checks, in their order.
fn check(offsets: &[u32], targets: &[u32], starts: &[u32], hops: usize, work: usize) -> Checked
    ensures { Finds result offsets.now targets.now starts.now hops work }
{
    if checks::graph_outside(offsets.len(), targets.len()) {
        return Err(Refusal::Count);
    }
    if buffers_wrong(offsets.len() - 1, hops, work) {
        return Err(Refusal::Buffer);
    }
    checks::check_store(offsets, targets, starts)
}

// The hop count of each object.
pub fn hops(
    offsets: &[u32],
    targets: &[u32],
    starts: &[u32],
    hops: &mut [u32],
    work: &mut [u32],
) -> Checked
    ensures { Answered offsets.now targets.now starts.now hops.old work.old
        result hops.new work.new }
{
    check(offsets, targets, starts, hops.len(), work.len())?;
    search::search(offsets, targets, starts, hops, work);
    Ok(())
}
