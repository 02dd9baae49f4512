// The token ring by value: who holds the token, its colour and the workers' colours.
ghost use Rattle.std.specs.Prelude.{◌≡◌, ◌≤◌};
ghost use Rattle.machine.specs.Ring.{shade as shade_of, colour_of, blackened as blackened_ring, passed_on};
ghost use Rattle.step.specs.Ringing.{ring_with, ring_of, RingAt};

// A colour is 1 for black and 0 for white; black workers are bits, worker 0 the lowest.
// Stays (1): a colour is a bit of `black` and a word of the saved words, added and shifted as a number; an enum would be turned
// into that number at each place.
#[derive(Clone, Copy)]
pub struct Ring {
    pub holder: u64,
    pub token: u64,
    pub black: u64,
}

// All are white, and worker 0 holds a white token.
pub fn fresh() -> Ring
    ensures { result ≡ ring_with 0 0 0 }
{
    Ring {
        holder: 0,
        token: 0,
        black: 0,
    }
}

// Worker b's colour.
pub fn shade(r: Ring, b: u32) -> u64
    requires { RingAt r b }
    ensures { (x : RingAt r b) → result ≡ shade_of (colour_of x.ring b) }
{
    (r.black >> b) % 2
}

// Worker b turns black.
pub fn blackened(r: Ring, b: u32) -> Ring
    requires { RingAt r b }
    ensures { (x : RingAt r b) → result ≡ ring_of (blackened_ring b x.ring) }
{
    let white = 1 - shade(r, b);
    Ring {
        black: r.black + (white << b),
        ..r
    }
}

// Worker b passes the token and is white: worker 0 sends a white one to the highest number, any other
// passes it to the next lower, black where it is black itself.
pub fn passed(r: Ring, workers: u32, b: u32) -> Ring
    requires { RingAt r b × (1 ≤ workers) }
    ensures { (x : RingAt r b) → result ≡ ring_of (passed_on workers b x.ring) }
{
    let own = shade(r, b);
    let black = r.black - (own << b);
    if b == 0 {
        return Ring {
            holder: workers as u64 - 1,
            token: 0,
            black,
        };
    }
    let holder = b as u64 - 1;
    if own == 1 {
        return Ring {
            holder,
            token: 1,
            black,
        };
    }
    Ring { holder, black, ..r }
}
