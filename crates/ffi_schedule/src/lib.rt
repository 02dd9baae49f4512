// Schedules as C functions: cards, and turns from a seed.
#![tactic(auto)]

ghost use Rattle.std.specs.Prelude.{◌≡◌, length};
ghost use Rattle.desk.specs.Kept.{unless_refused};
ghost use Rattle.hands.specs.Hand.{fault, turns_of, length_of as schedule_length, Rounds};
ghost use Rattle.kullneyra.specs.Calls.{LengthIn, seed_of, DrawsIn, DealsIn};
ghost use Rattle.kullneyra.specs.Promise.{DealPromise};

use seed::Seed;

// How many bytes the schedule of so many cards has; result words: bytes.
#[unsafe(no_mangle)]
pub extern "C" fn kullneyra_schedule_length(cards: usize, workers: u32, res: &mut [u64]) -> u32
    ensures { LengthIn (schedule_length workers cards) res.old res.new result }
{
    kullneyra::give_length(cards::schedule_length(cards, workers), res)
}

// The schedule of a hand of cards; there are no result words.
#[unsafe(no_mangle)]
pub extern "C" fn kullneyra_deal(cards: &[u32], workers: u32, schedule: &mut [u8]) -> u32
    ensures value { result ≡ fault workers cards.now (length schedule.old) }
    ensures schedule_after { schedule.new ≡ unless_refused (fault workers cards.now (length schedule.old)) (turns_of workers cards.now) schedule.old }
    ensures rounds { result ≡ 0 → Rounds workers (length cards.now) schedule.new }
{
    u32::from(refusal::number_of(&cards::deal(cards, workers, schedule)))
}

// The seed of two words.
fn seed_in(words: &[u32]) -> Seed
    requires { length words.now ≡ 2 }
    ensures { result ≡ seed_of words.now }
{
    Seed {
        first: words[0],
        second: words[1],
    }
}

// A draw, which moves the two words of the seed; result words: the card.
#[unsafe(no_mangle)]
pub extern "C" fn kullneyra_draw(seed: &mut [u32], res: &mut [u32]) -> u32
    ensures { DrawsIn seed.old res.old seed.new res.new result }
{
    if seed.len() != 2 {
        return kullneyra::BUFFER;
    }
    if res.len() != 1 {
        return kullneyra::BUFFER;
    }
    let mut words = seed_in(seed);
    match seed::draw(&mut words) {
        Ok(card) => {
            kullneyra::put_seed(words, seed);
            res[0] = card;
            0
        }
        Err(refusal) => kullneyra::number(refusal),
    }
}

// The schedule of so many draws, which move the two words of the seed; there are no result words.
#[unsafe(no_mangle)]
pub extern "C" fn kullneyra_deal_seed(
    seed: &mut [u32],
    rounds: usize,
    workers: u32,
    schedule: &mut [u8],
) -> u32
    ensures deals_in { DealsIn seed.old rounds workers schedule.old seed.new schedule.new result }
    ensures deal_promise { result ≡ 0 → DealPromise (seed_of seed.old) rounds workers schedule.new }
{
    if seed.len() != 2 {
        return kullneyra::BUFFER;
    }
    match seed_deal::deal_seed(seed_in(seed), rounds, workers, schedule) {
        Ok(moved) => {
            kullneyra::put_seed(moved, seed);
            0
        }
        Err(refusal) => kullneyra::number(refusal),
    }
}
