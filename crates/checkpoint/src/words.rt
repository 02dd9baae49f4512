// Numbers and marks copied between the lent buffers and the saved words.
ghost use Rattle.std.specs.Prelude.{◌≡◌, ◌*◌, ◌≤◌, length};
ghost use Rattle.laws.specs.Blocks.{laid};
ghost use Rattle.saved.specs.Layout.{two_words};
ghost use Rattle.checkpoint.specs.Copies.{numbers_of, Bytes, Prefix};

// Each number as two words, the low one first.
pub fn put_numbers(numbers: &[u64], out: &mut [u32])
    requires { length out.old ≡ 2 * length numbers.now }
    ensures { out.new ≡ laid two_words numbers.now }
{
    for (i, number) in numbers.iter().enumerate() {
        out[2 * i] = (*number % 4294967296) as u32;
        out[2 * i + 1] = (*number / 4294967296) as u32;
    }
}

// The numbers of which the words are two each.
pub fn take_numbers(words: &[u32], out: &mut [u64])
    requires { length words.now ≡ 2 * length out.old }
    ensures { out.new ≡ numbers_of words.now (length out.old) }
{
    for (i, number) in out.iter_mut().enumerate() {
        *number = saved::number(words, 2 * i);
    }
}

// Bytes, a word each.
pub fn put_bytes(bytes: &[u8], out: &mut [u32])
    requires { length out.old ≡ length bytes.now }
    ensures { out.new ≡ bytes.now }
{
    for (i, byte) in bytes.iter().enumerate() {
        out[i] = u32::from(*byte);
    }
}

// Words that are bytes.
pub fn take_bytes(words: &[u32], out: &mut [u8])
    requires { (length out.old ≡ length words.now) × Bytes words.now }
    ensures { out.new ≡ words.now }
{
    for (i, word) in words.iter().enumerate() {
        out[i] = *word as u8;
    }
}

// The first so many words; those behind them stay.
pub fn copy_first(words: &[u32], count: usize, out: &mut [u32])
    requires { (length out.old ≡ length words.now) × (count ≤ length words.now) }
    ensures { Prefix words.now count out.new }
{
    out[..count].copy_from_slice(&words[..count]);
}
