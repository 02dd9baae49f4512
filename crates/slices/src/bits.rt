// A set of numbers, as one bit for each number in words of 32 bits. A call that keeps such a set itself takes few
// words where they are enough, since all of them are cleared, and else as many as a small stack has room for: numbers
// that do not fit are looked at in windows, one after the other.
ghost use Rattle.std.specs.Prelude.{◌≡◌, ◌*◌, ◌<◌, eqb, length};
ghost use Rattle.slices.specs.Bits.{bit, Inserts, word_bits};

// The bits of a word.
pub const WORD: u32 = 32;

// The words of a small set and of a large one, and the numbers that the small one holds.
pub const FEW: usize = 64;

pub const MANY: usize = 6144;

pub const FEW_NUMBERS: usize = FEW * WORD as usize;

// Whether i is in the set.
pub fn contains(words: &[u32], i: u32) -> bool
    requires { i < word_bits * length words.now }
    ensures { result ≡ eqb (bit words.now i) 1 }
{
    let at = (i / WORD) as usize;
    (words[at] >> (i % WORD)) % 2 == 1
}

// Puts i into the set; false where it was in it already.
pub fn insert(words: &mut [u32], i: u32) -> bool
    requires { i < word_bits * length words.old }
    ensures { Inserts words.old i result words.new }
{
    let at = (i / WORD) as usize;
    let shift = i % WORD;
    let word = words[at];
    if (word >> shift) % 2 == 1 {
        return false;
    }
    words[at] = word + (1u32 << shift);
    true
}
