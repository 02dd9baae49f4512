// The schedule of a hand: its length, and its rounds, copied out of those of all cards or made worker
// by worker.
ghost use Rattle.std.specs.Prelude.{◌≡◌, ℕ, ◌/◌, ◌≤◌, length, eqb};
ghost use Rattle.hands.specs.Deck.{card_workers};
ghost use Rattle.hands.specs.Hand.{turns_of, bytes_of};
ghost use Rattle.seats.specs.Rounding.{Roomy, Rounded, Dealing};
ghost use Rattle.tables.specs.Table.{rounds};

use crate::table;

// Check 7: whether so many bytes are the schedule of so many cards.
pub fn is_schedule_of(bytes: usize, cards: usize, workers: u32) -> bool
    requires { (1 ≤ workers) × (workers ≤ card_workers) }
    ensures { result ≡ eqb bytes (bytes_of workers cards) }
{
    cards.checked_mul(2 * workers as usize) == Some(bytes)
}

// How the round of a card is written, for so many workers.
pub trait Rounds {
    ghost workers: { Self → ℕ };

    // That what the rounds are taken from is right.
    ghost right: { Self → Type 0 };

    // Writes the round of a card, and answers where it ends.
    fn put_round(&self, card: u32, schedule: &mut [u8], at: usize) -> usize
        requires right { right self.now }
        requires roomy { Roomy (workers self.now) card at (length schedule.old) }
        ensures { Rounded (workers self.now) card at schedule.old schedule.new result };
}

// Copied out of the rounds of all cards. How long a round is is a constant, so that the compiler makes a
// load and a store or two of it.
impl<const N: usize> Rounds for [[u8; N]; 720] {
    ghost workers = { λ all. N / 2 };

    ghost right = { λ all. all ≡ rounds (N / 2) };

    #[tactic(auto, using(crate::proofs::Rounds::row_long))]
    fn put_round(&self, card: u32, schedule: &mut [u8], at: usize) -> usize {
        text::put(schedule, at, &self[card as usize])
    }
}

// Worker by worker, by the card's digits.
#[derive(Clone, Copy, Debug, PartialEq, Eq)]
pub struct ByDigits {
    pub workers: u32,
}

impl Rounds for ByDigits {
    ghost workers = { λ s. s.workers };

    ghost right = { λ s. Unit {0} };

    fn put_round(&self, card: u32, schedule: &mut [u8], at: usize) -> usize {
        seats::put_round(table::all()[card as usize], self.workers, schedule, at)
    }
}

// Writes the rounds of a hand, one behind the other.
fn put_rounds<R: Rounds>(cards: &[u32], rounds: &R, schedule: &mut [u8])
    requires right { R.right rounds.now }
    requires dealing { Dealing cards.now (R.workers rounds.now) (length schedule.old) }
    ensures { schedule.new ≡ turns_of (R.workers rounds.now) cards.now }
{
    let mut at = 0;
    for card in cards {
        at = rounds.put_round(*card, schedule, at);
    }
}

// Fills the schedule of a hand.
pub fn put_hand(cards: &[u32], workers: u32, schedule: &mut [u8])
    requires { Dealing cards.now workers (length schedule.old) }
    ensures { schedule.new ≡ turns_of workers cards.now }
{
    match workers {
        1 => schedule.fill(0),
        4 => put_rounds(cards, tables::four(), schedule),
        6 => put_rounds(cards, tables::six(), schedule),
        _ => put_rounds(cards, &ByDigits { workers }, schedule),
    }
}
