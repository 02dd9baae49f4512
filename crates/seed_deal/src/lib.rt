// The schedule of so many draws from a seed.
#![tactic(auto)]

ghost use Rattle.std.specs.Prelude.{◌≡◌, length};
ghost use Rattle.seed.specs.Deal.{after_draws, Deals};
ghost use Rattle.seed_deal.specs.Drawing.{Drawing, Drew};

use cards::hand;
use cards::hand::{ByDigits, Rounds};
use cards::table::CARD_WORKERS;
use refusal::Refusal;
use seed::Seed;

// Draws so many cards and writes their rounds one behind the other; answers the seed that is left.
// Stays (2): `cards` has this loop over a hand; an iterator of cards for both would keep the seed that is left to itself.
fn put_draws<R: Rounds>(seed: Seed, draws: usize, rounds: &R, schedule: &mut [u8]) -> Seed
    requires right { R.right rounds.now }
    requires drawing { Drawing draws (R.workers rounds.now) (length schedule.old) }
    ensures { Drew seed draws (R.workers rounds.now) result schedule.new }
{
    let mut left = seed;
    let mut at = 0;
    for _ in 0..draws {
        left = seed::step(left);
        at = rounds.put_round(seed::card(left), schedule, at);
    }
    left
}

// The seed after so many draws.
fn after(seed: Seed, count: usize) -> Seed
    ensures { result ≡ after_draws count seed }
{
    let mut left = seed;
    for _ in 0..count {
        left = seed::step(left);
    }
    left
}

// Fills the schedule of so many draws, as `cards` does for a hand; answers the seed that is left.
fn put_seed(seed: Seed, draws: usize, workers: u32, schedule: &mut [u8]) -> Seed
    requires { Drawing draws workers (length schedule.old) }
    ensures { Drew seed draws workers result schedule.new }
{
    match workers {
        1 => {
            schedule.fill(0);
            after(seed, draws)
        }
        4 => put_draws(seed, draws, tables::four(), schedule),
        6 => put_draws(seed, draws, tables::six(), schedule),
        _ => put_draws(seed, draws, &ByDigits { workers }, schedule),
    }
}

// The schedule of so many draws for W workers, in a lent schedule of exactly its length: the seed as they
// leave it, or the refusal, beside which the seed is as it was.
pub fn deal_seed(
    seed: Seed,
    rounds: usize,
    workers: u32,
    schedule: &mut [u8],
) -> Result<Seed, Refusal>
    ensures { Deals seed rounds workers schedule.old result schedule.new }
{
    if checks::workers_outside(workers) {
        return Err(Refusal::Setting);
    }
    if seed.first == 0 {
        return Err(Refusal::Seed);
    }
    if CARD_WORKERS < workers {
        return Err(Refusal::Cards);
    }
    if !hand::is_schedule_of(schedule.len(), rounds, workers) {
        return Err(Refusal::Buffer);
    }
    Ok(put_seed(seed, rounds, workers, schedule))
}
