// Lines of text in a lent buffer: words, decimal numbers, line ends.
#![tactic(auto)]

ghost use Rattle.std.specs.Prelude.{◌+◌, ◌≤◌, ◌++◌, length};
ghost use Rattle.slices.specs.Put.{Put};
ghost use Rattle.text.specs.Pages.{Room, Wrote};
ghost use Rattle.text.specs.Text.{Aligned, decimal, spaced, line};

// Decimal digits, right-aligned: those of the number begin at `from`.
#[derive(Clone, Copy)]
struct Digits {
    bytes: [u8; 20],
    from: usize,
}

// The digits of a number.
// Stays (4): std's write! promises its bytes only beside an Ok that no clause promises, and `itoa` would be one more crate to rest on.
fn digits_of(v: u64) -> Digits
    ensures { Aligned v result.bytes result.from }
{
    let mut bytes = [0u8; 20];
    let mut left = v;
    for i in (0..20).rev() {
        bytes[i] = (48 + left % 10) as u8;
        if left < 10 {
            return Digits { bytes, from: i };
        }
        left /= 10;
    }
    Digits { bytes, from: 0 }
}

// Writes some bytes behind the first `at` bytes, leaves every other byte as it is, and returns how
// many bytes there are then.
// Stays (2): tried, `copy_from_slice` compares first where its two slices lie: `cards` takes 1.4 to 1.7 times as long to copy a round.
pub fn put(out: &mut [u8], at: usize, s: &[u8]) -> usize
    requires { at + length s.now ≤ length out.old }
    ensures { Put out.old at s.now out.new result }
{
    for (i, byte) in s.iter().enumerate() {
        out[at + i] = *byte;
    }
    at + s.len()
}

// A lent buffer, and how many of its bytes are written. Each method writes behind these, and leaves
// every other byte as it is.
#[derive(Drop)]
pub struct Page<'a> {
    pub out: &'a mut [u8],
    pub at: usize,
}

impl Page<'_> {
    // Writes some bytes.
    pub fn put(&mut self, s: &[u8])
        requires { Room (length s.now) self.old }
        ensures { Wrote (length s.now) s.now self.old self.new }
    {
        self.at = put(self.out, self.at, s);
    }

    // Writes a number.
    fn put_number(&mut self, v: u64)
        requires { Room 20 self.old }
        ensures { Wrote 20 (decimal v) self.old self.new }
    {
        let Digits { bytes, from } = digits_of(v);
        self.put(&bytes[from..]);
    }

    // Writes a space and a number.
    fn put_spaced(&mut self, v: u64)
        requires { Room 21 self.old }
        ensures { Wrote 21 (spaced v) self.old self.new }
    {
        self.put(b" ");
        self.put_number(v);
    }

    // Writes a word, a space and a number.
    pub fn put_named(&mut self, word: &[u8], v: u64)
        requires { Room (length word.now + 21) self.old }
        ensures { Wrote (length word.now + 21) (word.now ++ spaced v) self.old self.new }
    {
        self.put(word);
        self.put_spaced(v);
    }

    // Writes a line: a word and a number.
    pub fn put_line(&mut self, word: &[u8], v: u64)
        requires { Room (length word.now + 22) self.old }
        ensures { Wrote (length word.now + 22) (line (word.now ++ spaced v)) self.old self.new }
    {
        self.put_named(word, v);
        self.put(b"\n");
    }

    // Writes a line: a word and two numbers.
    pub fn put_line_of_two(&mut self, word: &[u8], v: u64, w: u64)
        requires { Room (length word.now + 43) self.old }
        ensures { Wrote (length word.now + 43) (line (word.now ++ spaced v ++ spaced w)) self.old
            self.new }
    {
        self.put_named(word, v);
        self.put_spaced(w);
        self.put(b"\n");
    }
}
