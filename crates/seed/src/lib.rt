// Turns from a seed: two words of 32 bits, moved on at each draw, and the card that they give. The
// schedule of so many draws is defined here; `seed_deal` has its call.
#![tactic(auto)]

ghost use Rattle.std.specs.Prelude.{◌≡◌};
ghost use Rattle.seed.specs.Draw.{xorshifted, next, card_of, drawn};

use refusal::Refusal;

// The two words. They are where the caller keeps them.
#[derive(Clone, Copy, Debug, PartialEq, Eq)]
pub struct Seed {
    pub first: u32,
    pub second: u32,
}

// Marsaglia's xorshift on 32 bits.
#[tactic(auto, unfolding(crate::specs::Draw::xorshifted))]
fn xorshift(x: u32) -> u32
    ensures { result ≡ xorshifted x }
{
    let a = x ^ (x << 13);
    let b = a ^ (a >> 17);
    b ^ (b << 5)
}

// The seed after a draw. One whose first word is 0 stays as it is.
pub fn step(seed: Seed) -> Seed
    ensures { result ≡ next seed }
{
    let Seed { first, second } = seed;
    if first == 0 {
        return seed;
    }
    Seed {
        first: xorshift(first),
        second: second.wrapping_add(362437),
    }
}

// The card that moved words give: the remainder of their sum.
pub fn card(seed: Seed) -> u32
    ensures { result ≡ card_of seed }
{
    let Seed { first, second } = seed;
    first.wrapping_add(second) % 720
}

// Moves the seed on where the caller keeps it, and answers the card. A first word of 0 is refused.
pub fn draw(seed: &mut Seed) -> Result<u32, Refusal>
    ensures { (seed.new ≡ next seed.old) × (result ≡ drawn seed.old) }
{
    if seed.first == 0 {
        return Err(Refusal::Seed);
    }
    *seed = step(*seed);
    Ok(card(*seed))
}
