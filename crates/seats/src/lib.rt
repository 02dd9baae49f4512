// The round of a card, worker by worker: every worker below W has a turn, in the card's order, and
// asks the one after it, the last the first.
#![tactic(auto)]

ghost use Rattle.std.specs.Prelude.{length};
ghost use Rattle.hands.specs.Deck.{digits};
ghost use Rattle.seats.specs.Rounding.{Seats, Seated, Seatable, Closed};

// Adds worker b to the round that begins at `at` and so far ends at `next`, if it takes part, and
// answers where the round then ends: the one before asks b, and b asks the first.
// Stays (5): the beginning and the end of a round change apart, and three bytes are stored around the end.
fn seat(schedule: &mut [u8], at: usize, next: usize, workers: u32, b: u32) -> usize
    requires { Seats (length schedule.old) at next workers b }
    ensures { Seated workers b at schedule.old next schedule.new result }
{
    if workers <= b {
        return next;
    }
    if next == at {
        schedule[next] = b as u8;
        schedule[next + 1] = b as u8;
        return next + 2;
    }
    let first = schedule[at];
    schedule[next - 1] = b as u8;
    schedule[next] = b as u8;
    schedule[next + 1] = first;
    next + 2
}

// Writes the round of the card with this number, and answers where it ends.
pub fn put_round(n: u32, workers: u32, schedule: &mut [u8], at: usize) -> usize
    requires { Seatable workers (digits n) at (length schedule.old) }
    ensures { Closed workers (digits n) at schedule.old schedule.new result }
{
    let mut next = at;
    for b in hands::digits_of(n) {
        next = seat(schedule, at, next, workers, b);
    }
    next
}
