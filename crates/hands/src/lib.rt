// Hands of cards (SPECIFICATION 9): the deck, the schedule of a hand and its checks. The definitions
// stand in specs/, and what is proved of them in proofs/; `tables` has the rounds of all cards, and
// `cards` the calls. What is here is the digits of a card.
#![tactic(auto)]

ghost use Rattle.std.specs.Prelude.{◌≡◌};
ghost use Rattle.hands.specs.Deck.{digits};

// The six digits of a card, the first worker first.
pub fn digits_of(n: u32) -> [u32; 6]
    ensures { result ≡ digits n }
{
    [
        n / 100000,
        n / 10000 % 10,
        n / 1000 % 10,
        n / 100 % 10,
        n / 10 % 10,
        n % 10,
    ]
}
