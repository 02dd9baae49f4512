// Numbers in a row taken into a set of bits, a word of it at a time.
ghost use Rattle.std.specs.Prelude.{◌+◌, ◌-◌, ◌*◌, ◌≤◌, ◌<◌, length};
ghost use Rattle.slices.specs.Bits.{word_bits};
ghost use Rattle.frontier.specs.Rows.{Row};

use slices::bits;

// Takes so many numbers into the word at a place, from one of its bits on; false where one of them is in it already.
fn insert_part(words: &mut [u32], at: usize, low: u32, count: u32) -> bool
    requires { (at < length words.old) × (0 < count) × (low + count ≤ word_bits) }
    ensures { Row words.old (word_bits * at + low) count result words.new }
{
    let word = words[at];
    let rest = bits::WORD - count;
    if (word >> low) << rest != 0 {
        return false;
    }
    words[at] = word + ((u32::MAX >> rest) << low);
    true
}

// Takes the numbers from one up to another; false where one of them is in the set already.
pub fn insert(words: &mut [u32], from: u32, to: u32) -> bool
    requires { (from ≤ to) × (to ≤ word_bits * length words.old) }
    ensures { Row words.old from (to - from) result words.new }
{
    // Stays (3): the first part is what is left of a word, so the steps are not alike.
    let mut i = from;
    while i < to {
        let low = i % bits::WORD;
        let count = (bits::WORD - low).min(to - i);
        if !insert_part(words, (i / bits::WORD) as usize, low, count) {
            return false;
        }
        i += count;
    }
    true
}
