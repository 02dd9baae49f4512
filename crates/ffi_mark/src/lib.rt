// The collection as C functions: marking, stopping and taking up, sweeping.
#![tactic(auto)]

ghost use Rattle.std.specs.Prelude.{◌≡◌, [], length};
ghost use Rattle.desk.specs.Kept.{unless_refused};
ghost use Rattle.marker.specs.Answer.{call_of};
ghost use Rattle.kullneyra.specs.Calls.{sweep_answer, sweep_words, sweep_list};
ghost use Rattle.kullneyra.specs.Calls.{LengthIn, settings};
ghost use Rattle.kullneyra.specs.Promise.{Marks, MarksAll, Begins, Resumes, SweepPromise};
ghost use Rattle.begin.specs.Answer.{length_for as saved_length};

use desk::Settings;
use resume::Resumed;
use sweep::Swept;

// The marker; the tallies are four words for each worker: followed, won, lost and handed. Result
// words: finished (1 or 0), then the counts in the order of `Counts`.
#[unsafe(no_mangle)]
pub extern "C" fn kullneyra_mark(
    offsets: &[u32],
    targets: &[u32],
    starts: &[u32],
    workers: u32,
    batch: u32,
    cutoff: u32,
    schedule: &[u8],
    marks: &mut [u8],
    work: &mut [u32],
    tallies: &mut [u64],
    res: &mut [u64],
) -> u32
    ensures { Marks (call_of offsets.now targets.now starts.now (settings workers batch cutoff) schedule.now)
        marks.old work.old tallies.old res.old
        marks.new work.new tallies.new res.new result }
{
    if res.len() != kullneyra::MARK_WORDS {
        return kullneyra::BUFFER;
    }
    let answer = marker::mark(
        offsets,
        targets,
        starts,
        Settings {
            workers,
            batch,
            cutoff,
        },
        schedule,
        marks,
        work,
        tallies,
    );
    kullneyra::give_marked(answer, res)
}

// A whole collection without a schedule: as the marker with so many rounds as are sure to finish.
#[unsafe(no_mangle)]
pub extern "C" fn kullneyra_mark_all(
    offsets: &[u32],
    targets: &[u32],
    starts: &[u32],
    workers: u32,
    batch: u32,
    cutoff: u32,
    marks: &mut [u8],
    work: &mut [u32],
    tallies: &mut [u64],
    res: &mut [u64],
) -> u32
    ensures { MarksAll (call_of offsets.now targets.now starts.now (settings workers batch cutoff) [])
        marks.old work.old tallies.old res.old
        marks.new work.new tallies.new res.new result }
{
    if res.len() != kullneyra::MARK_WORDS {
        return kullneyra::BUFFER;
    }
    let answer = mark_all::mark_all(
        offsets,
        targets,
        starts,
        Settings {
            workers,
            batch,
            cutoff,
        },
        marks,
        work,
        tallies,
    );
    kullneyra::give_marked(answer, res)
}

// How many words a saved collection takes; one result word.
#[unsafe(no_mangle)]
pub extern "C" fn kullneyra_saved_words(objects: u32, workers: u32, res: &mut [u64]) -> u32
    ensures { LengthIn (saved_length objects workers) res.old res.new result }
{
    kullneyra::give_length(begin::saved_words(objects, workers), res)
}

// As the marker, and saves the collection.
#[unsafe(no_mangle)]
pub extern "C" fn kullneyra_begin(
    offsets: &[u32],
    targets: &[u32],
    starts: &[u32],
    workers: u32,
    batch: u32,
    cutoff: u32,
    schedule: &[u8],
    marks: &mut [u8],
    work: &mut [u32],
    tallies: &mut [u64],
    saved: &mut [u32],
    res: &mut [u64],
) -> u32
    ensures { Begins (call_of offsets.now targets.now starts.now (settings workers batch cutoff) schedule.now)
        marks.old work.old tallies.old saved.old res.old
        marks.new work.new tallies.new saved.new res.new result }
{
    if res.len() != kullneyra::STOP_WORDS {
        return kullneyra::BUFFER;
    }
    let answer = begin::begin(
        offsets,
        targets,
        starts,
        Settings {
            workers,
            batch,
            cutoff,
        },
        schedule,
        marks,
        work,
        tallies,
        saved,
    );
    kullneyra::give_stopped(answer, true, res)
}

// Takes a saved collection up, and saves it again.
#[unsafe(no_mangle)]
pub extern "C" fn kullneyra_resume(
    offsets: &[u32],
    targets: &[u32],
    starts: &[u32],
    workers: u32,
    batch: u32,
    cutoff: u32,
    schedule: &[u8],
    marks: &mut [u8],
    work: &mut [u32],
    tallies: &mut [u64],
    saved: &mut [u32],
    res: &mut [u64],
) -> u32
    ensures { Resumes (call_of offsets.now targets.now starts.now (settings workers batch cutoff) schedule.now)
        marks.old work.old tallies.old saved.old res.old
        marks.new work.new tallies.new saved.new res.new result }
{
    if res.len() != kullneyra::STOP_WORDS {
        return kullneyra::BUFFER;
    }
    match resume::resume(
        offsets,
        targets,
        starts,
        Settings {
            workers,
            batch,
            cutoff,
        },
        schedule,
        marks,
        work,
        tallies,
        saved,
    ) {
        Ok(Resumed { marked, sound }) => kullneyra::give_stopped(Ok(marked), sound, res),
        Err(refusal) => kullneyra::number(refusal),
    }
}

// The sweep; result words: count, freed.
#[unsafe(no_mangle)]
pub extern "C" fn kullneyra_sweep(
    marks: &[u8],
    sizes: &[u64],
    list: &mut [u32],
    res: &mut [u64],
) -> u32
    ensures value { result ≡ sweep_answer marks.now sizes.now list.old res.old }
    ensures list_after { list.new ≡ sweep_list marks.now sizes.now list.old res.old }
    ensures res_after { res.new ≡ unless_refused (sweep_answer marks.now sizes.now list.old res.old) (sweep_words marks.now sizes.now list.old) res.old }
    ensures sweep_promise { length res.old ≡ 2 → SweepPromise marks.now list.new res.new result }
{
    if res.len() != 2 {
        return kullneyra::BUFFER;
    }
    match sweep::sweep(marks, sizes, list) {
        Ok(Swept { count, freed }) => {
            res.copy_from_slice(&[u64::from(count), freed]);
            0
        }
        Err(refusal) => kullneyra::number(refusal),
    }
}
