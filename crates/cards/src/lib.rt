// Cards: the constant deck, and the schedule of a hand.
#![tactic(auto)]

pub mod hand;
pub mod table;

ghost use Rattle.std.specs.Prelude.{◌≡◌};
ghost use Rattle.desk.specs.Length.{length_row};
ghost use Rattle.hands.specs.Hand.{length_of, Deals};

use refusal::{Checked, Refusal};
use table::{CARD_WORKERS, DECK_SIZE};

// How many bytes the schedule of so many cards has.
pub fn schedule_length(cards: usize, workers: u32) -> Result<u64, Refusal>
    ensures { length_row result ≡ length_of workers cards }
{
    if checks::workers_outside(workers) {
        return Err(Refusal::Setting);
    }
    if CARD_WORKERS < workers {
        return Err(Refusal::Cards);
    }
    let Some(bytes) = cards.checked_mul(2 * workers as usize) else {
        return Err(Refusal::Buffer);
    };
    Ok(bytes as u64)
}

// The schedule of a hand for W workers, in a lent schedule of exactly its length.
pub fn deal(cards: &[u32], workers: u32, schedule: &mut [u8]) -> Checked
    ensures { Deals workers cards.now schedule.old result schedule.new }
{
    if checks::workers_outside(workers) {
        return Err(Refusal::Setting);
    }
    if CARD_WORKERS < workers {
        return Err(Refusal::Cards);
    }
    if !graph::is_below(DECK_SIZE, cards) {
        return Err(Refusal::Cards);
    }
    if !hand::is_schedule_of(schedule.len(), cards.len(), workers) {
        return Err(Refusal::Buffer);
    }
    hand::put_hand(cards, workers, schedule);
    Ok(())
}
