// The lines that the program prints, each written to a page behind what it has.
#![tactic(auto)]

ghost use Rattle.std.specs.Prelude.{◌+◌, ◌/◌, ◌++◌, length};
ghost use Rattle.text.specs.Pages.{Room, Wrote};
ghost use Rattle.lines.specs.Rooms.{counts_room, tally_room, dead_room};
ghost use Rattle.lines.specs.Lines.{refusal_line, state_line, found_lines, worker_lines, count_lines};
ghost use Rattle.lines.specs.Lines.{tally_line, tally_at, word_lines, dead_line, dead_lines, Below, freed_line};

use machine::Counts;
use text::Page;

// The line of a refusal.
pub fn put_refusal(page: &mut Page, number: u8)
    requires { Room 29 page.old }
    ensures { Wrote 29 (refusal_line number) page.old page.new }
{
    page.put_line(b"refusal", u64::from(number));
}

// Whether the collection has finished.
fn put_state(page: &mut Page, finished: bool)
    requires { Room 11 page.old }
    ensures { Wrote 11 (state_line finished) page.old page.new }
{
    if finished {
        page.put(b"finished\n");
    } else {
        page.put(b"unfinished\n");
    }
}

// Whether the collection has finished, what is marked and what was followed.
fn put_found(page: &mut Page, finished: bool, counts: Counts)
    requires { Room 67 page.old }
    ensures { Wrote 67 (found_lines finished counts) page.old page.new }
{
    put_state(page, finished);
    page.put_line(b"live", counts.live);
    page.put_line(b"followed", counts.followed);
}

// What the workers did, and how many carry references now.
fn put_workers(page: &mut Page, counts: Counts)
    requires { Room 114 page.old }
    ensures { Wrote 114 (worker_lines counts) page.old page.new }
{
    page.put_line(b"handed", counts.handed);
    page.put_line(b"refused", counts.refused);
    page.put_line(b"moved", counts.moved);
    page.put_line(b"carrying", counts.carrying);
}

// What is counted of every collection.
fn put_counts(page: &mut Page, finished: bool, counts: Counts)
    requires { Room counts_room page.old }
    ensures { Wrote counts_room (count_lines finished counts) page.old page.new }
{
    put_found(page, finished, counts);
    put_workers(page, counts);
}

// The line of one worker, by the four words of its tally.
fn put_tally(page: &mut Page, worker: u64, tally: &[u64; 4])
    requires { Room 134 page.old }
    ensures { Wrote 134 (tally_line worker (tally_at tally.now 0)) page.old page.new }
{
    let [followed, won, lost, handed] = *tally;
    page.put_named(b"box", worker);
    page.put_named(b" followed", followed);
    page.put_named(b" won", won);
    page.put_named(b" lost", lost);
    page.put_line(b" handed", handed);
}

// A line for each worker, by the words of all tallies.
fn put_tallies(page: &mut Page, tallies: &[u64])
    requires { Room (tally_room (length tallies.now / 4)) page.old }
    ensures { Wrote (tally_room (length tallies.now / 4)) (word_lines tallies.now (length tallies.now / 4))
        page.old page.new }
{
    let (each, _) = tallies.as_chunks::<4>();
    for (worker, tally) in each.iter().enumerate() {
        put_tally(page, worker as u64, tally);
    }
}

// The lines of every collection: the counts, and each worker's tally.
// Stays (1): `finished` is a line of its own, and the counts hold beside either value.
pub fn put_result(page: &mut Page, finished: bool, counts: Counts, tallies: &[u64])
    requires { Room (counts_room + tally_room (length tallies.now / 4)) page.old }
    ensures { Wrote (counts_room + tally_room (length tallies.now / 4))
        (count_lines finished counts ++ word_lines tallies.now (length tallies.now / 4)) page.old page.new }
{
    put_counts(page, finished, counts);
    put_tallies(page, tallies);
}

// One dead line.
fn put_dead(page: &mut Page, object: u32, size: u64)
    requires { Room 47 page.old }
    ensures { Wrote 47 (dead_line object size) page.old page.new }
{
    page.put_line_of_two(b"dead", u64::from(object), size);
}

// A line for each dead object of the list.
pub fn put_dead_list(page: &mut Page, list: &[u32], sizes: &[u64])
    requires room { Room (dead_room (length list.now)) page.old }
    requires below { Below list.now (length sizes.now) }
    ensures { Wrote (dead_room (length list.now)) (dead_lines sizes.now list.now) page.old page.new }
{
    for object in list {
        put_dead(page, *object, sizes[*object as usize]);
    }
}

// The last line: the sum of the dead objects' sizes.
pub fn put_freed(page: &mut Page, freed: u64)
    requires { Room 27 page.old }
    ensures { Wrote 27 (freed_line freed) page.old page.new }
{
    page.put_line(b"freed", freed);
}
