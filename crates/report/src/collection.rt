// One collection of a store that was read: the settings, the marker, and the lines of its answer.
ghost use Rattle.std.specs.Prelude.{Ok, length};
ghost use Rattle.text.specs.Pages.{Wrote};
ghost use Rattle.program.specs.Program.{contents, order_text};
ghost use Rattle.report.specs.Ready.{answer_text, collection_text, Printable, Collectable, Orderly};

use crate::{dead, order};
use desk::{Settings, places};
use marker::Marked;
use program::limits;
use program::limits::ORDER_LENGTH;
use text::Page;

// Writes the lines of what the marker's turns came to.
fn put_marked(marked: Marked, sizes: &[u64], marks: &[u8], tallies: &[u64], page: &mut Page)
    requires { Printable sizes.now marks.now tallies.now page.old }
    ensures { let text = answer_text (Ok marked) sizes.now marks.now tallies.now in Wrote (length text) text page.old page.new }
{
    match marked {
        Marked::Finished(counts) => {
            lines::put_result(page, true, counts, tallies);
            dead::put_dead(sizes, marks, page);
        }
        Marked::Unfinished(counts) => lines::put_result(page, false, counts, tallies),
    }
}

// Collects by settings in their ranges, in words of exactly the lengths that they ask for.
fn put_collection(
    offsets: &[u32],
    targets: &[u32],
    sizes: &[u64],
    starts: &[u32],
    settings: Settings,
    schedule: &[u8],
    page: &mut Page,
)
    requires { Collectable (contents offsets.now targets.now sizes.now starts.now) settings page.old }
    ensures { let text = collection_text (contents offsets.now targets.now sizes.now starts.now) settings schedule.now in
        Wrote (length text) text page.old page.new }
{
    let mut marks = [0u8; limits::MOST_OBJECTS];
    let mut work = [0u32; limits::WORK_ROOM];
    let mut tallies = [0u64; limits::TALLIES_ROOM];
    let n = sizes.len();
    let workers = settings.workers as usize;
    let words = workers * places::stretch(n);
    let tallied = workers * places::TALLY;
    let marking = &mut marks[..n];
    let counted = &mut tallies[..tallied];
    let answer = marker::mark(
        offsets,
        targets,
        starts,
        settings,
        schedule,
        marking,
        &mut work[..words],
        counted,
    );
    let Ok(marked) = answer else {
        lines::put_refusal(page, refusal::number_of(&answer));
        return;
    };
    put_marked(marked, sizes, marking, counted, page);
}

// Checks the settings, and collects by them.
pub fn put_ordered(
    offsets: &[u32],
    targets: &[u32],
    sizes: &[u64],
    starts: &[u32],
    order: &[u8],
    page: &mut Page,
)
    requires { Orderly (contents offsets.now targets.now sizes.now starts.now) order.now page.old }
    ensures { let text = order_text (contents offsets.now targets.now sizes.now starts.now) order.now in
        Wrote (length text) text page.old page.new }
{
    let settings = order::order_of(order);
    let found = order::check(settings);
    let Ok(()) = found else {
        lines::put_refusal(page, refusal::number_of(&found));
        return;
    };
    put_collection(
        offsets,
        targets,
        sizes,
        starts,
        settings,
        &order[ORDER_LENGTH..],
        page,
    );
}
