// The checks that several calls make (SPECIFICATION 2), each by its definition in `desk`.
#![tactic(auto)]

ghost use Rattle.std.specs.Prelude.{◌≡◌, true, ◌+◌, ◌-◌, ◌*◌, ◌/◌, ◌≤◌, length};
ghost use Rattle.graph.specs.Graph.{all_below};
ghost use Rattle.graph.specs.Limits.{most_objects};
ghost use Rattle.refusal.specs.Number.{number_of};
ghost use Rattle.desk.specs.Limits.{most_workers};
ghost use Rattle.desk.specs.Checks.{outside, settings_outside, counts_outside, saved_wrong, lengths_wrong, graph_faults, store_fault, schedule_fits};

use desk::{Lengths, MOST_SETTING, MOST_WORKERS, Settings, places};
use refusal::{Checked, Refusal};

// Whether a number is not 1 to the largest.
pub fn out_of_range(x: usize, most: usize) -> bool
    ensures { result ≡ outside most x }
{
    x < 1 || most < x
}

// Check 8 of W alone.
pub fn workers_outside(workers: u32) -> bool
    ensures { result ≡ outside most_workers workers }
{
    out_of_range(workers as usize, MOST_WORKERS as usize)
}

// Check 8.
pub fn settings_outside(s: Settings) -> bool
    ensures { result ≡ settings_outside s.workers s.batch s.cutoff }
{
    workers_outside(s.workers)
        || out_of_range(s.batch as usize, MOST_SETTING as usize)
        || out_of_range(s.cutoff as usize, MOST_SETTING as usize)
}

// Check 4 of n alone.
pub fn objects_outside(objects: u32) -> bool
    ensures { result ≡ outside most_objects objects }
{
    out_of_range(objects as usize, graph::MOST_OBJECTS)
}

// Check 4.
pub fn counts_outside(n: usize, m: usize) -> bool
    ensures { result ≡ counts_outside n m }
{
    out_of_range(n, graph::MOST_OBJECTS) || graph::MOST_REFERENCES < m
}

// Check 4, from the number of offsets and of targets.
pub fn graph_outside(offsets: usize, targets: usize) -> bool
    ensures { result ≡ counts_outside (offsets - 1) targets }
{
    counts_outside(offsets.saturating_sub(1), targets)
}

// Check 7 of saved words, with n and W within their ranges.
fn saved_wrong(n: usize, workers: u32, saved: Option<usize>) -> bool
    requires { (n ≤ most_objects) × (workers ≤ most_workers) }
    ensures { result ≡ saved_wrong n workers saved }
{
    match saved {
        None => false,
        Some(words) => words != places::saved(n, workers),
    }
}

// Check 7 of a collection.
pub fn lengths_wrong(n: usize, workers: u32, l: Lengths) -> bool
    requires { (n ≤ most_objects) × (workers ≤ most_workers) }
    ensures { result ≡ lengths_wrong n workers l }
{
    saved_wrong(n, workers, l.saved)
        || l.marks != n
        || l.work != workers as usize * places::stretch(n)
        || l.tallies != workers as usize * places::TALLY
}

// Checks 4 and 10: offsets and targets that are a graph.
pub fn check_graph(offsets: &[u32], targets: &[u32]) -> Checked
    ensures { number_of result ≡ graph_faults offsets.now targets.now }
{
    if graph_outside(offsets.len(), targets.len()) {
        return Err(Refusal::Count);
    }
    if !graph::well_formed(offsets, targets) {
        return Err(Refusal::Graph);
    }
    Ok(())
}

// Checks 10, 13 and 5 of a store whose n and m are within their ranges: a graph, and starts in it.
pub fn check_store(offsets: &[u32], targets: &[u32], starts: &[u32]) -> Checked
    ensures { number_of result ≡ store_fault offsets.now targets.now starts.now }
{
    if !graph::well_formed(offsets, targets) {
        return Err(Refusal::Graph);
    }
    if out_of_range(starts.len(), graph::MOST_STARTS) {
        return Err(Refusal::Starts);
    }
    if !graph::is_below(offsets.len() - 1, starts) {
        return Err(Refusal::Object);
    }
    Ok(())
}

// Whether no byte is above this one. Bytes are compared as they are, so that the processor takes many at once.
fn is_at_most(most: u8, bytes: &[u8]) -> bool
    ensures { result ≡ all_below (most + 1) bytes.now }
{
    let mut fits = true;
    for &b in bytes {
        fits &= b <= most;
    }
    fits
}

// Whether every byte is below W; false too where W is outside its range.
fn all_below(bytes: &[u8], workers: u32) -> bool
    ensures { result ≡ true → all_below workers bytes.now ≡ true }
{
    if workers_outside(workers) {
        return false;
    }
    is_at_most((workers - 1) as u8, bytes)
}

// Check 9 of whole entries.
fn entries_fit(schedule: &[u8], workers: u32) -> bool
    requires { 2 * (length schedule.now / 2) ≡ length schedule.now }
    ensures { result ≡ schedule_fits workers schedule.now }
{
    // Looks at every entry, so that the loop is compiled without a jump out of it.
    let mut fits = true;
    for entry in schedule.chunks_exact(2) {
        fits &= u32::from(entry[0]) < workers;
    }
    fits
}

// Check 9: whole entries, each with a worker below W. Nearly always whom it names is below W too, and then all bytes are
// tested at once.
pub fn schedule_fits(schedule: &[u8], workers: u32) -> bool
    ensures { result ≡ schedule_fits workers schedule.now }
{
    if schedule.len() % 2 != 0 {
        return false;
    }
    all_below(schedule, workers) || entries_fit(schedule, workers)
}
