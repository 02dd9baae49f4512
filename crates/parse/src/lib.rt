// The text of a Matrix Market file (SPECIFICATION 13) read from the front: its first line, the counts, the
// lines of pairs. Nothing is written.
// Stays (5): a text and a place in it; a struct of both is no plainer, since what is said of a place names the two (`matrix` `Steps`).
#![tactic(auto)]

ghost use Rattle.std.specs.Prelude.{◌≡◌, true, false, ◌+◌, ◌≤◌, ◌<◌, length, drop, MatchOption, IfSome};
ghost use Rattle.matrix.specs.Reading.{skip, stops, is_line, is_head, are_lines};
ghost use Rattle.matrix.specs.Import.{is_inside};
ghost use Rattle.matrix.specs.Steps.{pair_at, LineEnd, Digits, four_value, FieldAt, LineAt, HeadOf, BodyAt};

use matrix::BANNER;

// The bytes that part numbers and lines, and the one that begins a line to be skipped.
const SPACE: u8 = 32;

const FEED: u8 = 10;

const PERCENT: u8 = 37;

// The digit 0, and the most digits of a number.
const ZERO: u8 = 48;

const MOST_DIGITS: usize = 10;

// A number, and the place behind the byte that ends it.
#[derive(Clone, Copy)]
pub struct Field {
    pub value: u64,
    pub next: usize,
}

// A line of a pair, as it is written, and the place behind it.
#[derive(Clone, Copy)]
pub struct Line {
    pub from: u64,
    pub to: u64,
    pub next: usize,
}

// The counts, and the place of the first pair.
#[derive(Clone, Copy)]
pub struct Head {
    pub rows: u64,
    pub entries: u64,
    pub next: usize,
}

// The place behind the next line feed, or the end of the text.
fn behind_line(text: &[u8], from: usize) -> usize
    requires { from ≤ length text.now }
    ensures { LineEnd text.now from result }
{
    match text[from..].iter().position(|b| *b == FEED) {
        Some(k) => from + k + 1,
        None => text.len(),
    }
}

// The place behind all lines from a place on that begin with %.
fn skip_lines(text: &[u8], from: usize) -> usize
    requires { from ≤ length text.now }
    ensures text_value { drop result text.now ≡ skip false (drop from text.now) }
    ensures upper_bound { result ≤ length text.now }
{
    // Stays (3): the loop goes from line to line, and how far a step goes the line says.
    let mut at = from;
    while at < text.len() && text[at] == PERCENT {
        at = behind_line(text, at + 1);
    }
    at
}

// Whether four bytes are digits.
fn are_digits(a: u8, b: u8, c: u8, d: u8) -> bool
    ensures { result ≡ true → Digits a b c d }
{
    a.is_ascii_digit() && b.is_ascii_digit() && c.is_ascii_digit() && d.is_ascii_digit()
}

// The number of four digits.
fn four_value(a: u8, b: u8, c: u8, d: u8) -> u64
    requires { Digits a b c d }
    ensures { (result ≡ four_value a b c d) × (result < 10000) }
{
    let high = u64::from(a - ZERO) * 10 + u64::from(b - ZERO);
    (high * 10 + u64::from(c - ZERO)) * 10 + u64::from(d - ZERO)
}

// A number of four or five digits with the wanted byte behind it, as most are: their bytes are looked at all at once. Of anything else
// nothing is said.
fn short_field(text: &[u8], at: usize, stop: u8) -> Option<Field>
    requires { (at + 6 ≤ length text.now) × (stop < 48) }
    ensures { IfSome result (λ f. FieldAt text.now at stop f.value f.next × (f.next ≤ at + 6)) }
{
    let a = text[at];
    let b = text[at + 1];
    let c = text[at + 2];
    let d = text[at + 3];
    let e = text[at + 4];
    if !are_digits(a, b, c, d) {
        return None;
    }
    let four = four_value(a, b, c, d);
    if e == stop {
        return Some(Field {
            value: four,
            next: at + 5,
        });
    }
    if !e.is_ascii_digit() || text[at + 5] != stop {
        return None;
    }
    Some(Field {
        value: four * 10 + u64::from(e - ZERO),
        next: at + 6,
    })
}

// The number at a place, if the byte behind its digits is the wanted one.
fn field_at(text: &[u8], at: usize, stop: u8) -> Option<Field>
    requires { (at ≤ length text.now) × ((0 < stop) × (stop < 48)) }
    ensures { MatchOption result (stops stop (drop at text.now) ≡ false) (λ f. FieldAt text.now at stop f.value f.next) }
{
    let mut value: u64 = 0;
    for (k, b) in text[at..].iter().enumerate() {
        if !b.is_ascii_digit() {
            if *b != stop || k == 0 {
                return None;
            }
            return Some(Field {
                value,
                next: at + k + 1,
            });
        }
        if k == MOST_DIGITS {
            return None;
        }
        value = value * 10 + u64::from(*b - ZERO);
    }
    None
}

// The line of a pair at a place, number by number.
fn any_line(text: &[u8], at: usize) -> Option<Line>
    requires { at ≤ length text.now }
    ensures { MatchOption result (is_line (drop at text.now) ≡ false) (λ l. LineAt text.now at l.from l.to l.next) }
{
    let from = field_at(text, at, SPACE)?;
    let to = field_at(text, from.next, FEED)?;
    Some(Line {
        from: from.value,
        to: to.value,
        next: to.next,
    })
}

// The line of a pair whose numbers have four or five digits. Of anything else nothing is said.
// Stays (2): tried, with one function for a number of either kind in place of this one and `any_line`, and import took a tenth longer.
fn short_line(text: &[u8], at: usize) -> Option<Line>
    requires { at + 12 ≤ length text.now }
    ensures { IfSome result (λ l. LineAt text.now at l.from l.to l.next) }
{
    let from = short_field(text, at, SPACE)?;
    let to = short_field(text, from.next, FEED)?;
    Some(Line {
        from: from.value,
        to: to.value,
        next: to.next,
    })
}

// The line of a pair at a place.
pub fn line_at(text: &[u8], at: usize) -> Option<Line>
    requires { at ≤ length text.now }
    ensures { MatchOption result (is_line (drop at text.now) ≡ false) (λ l. LineAt text.now at l.from l.to l.next) }
{
    if 12 <= text.len() - at {
        let line = short_line(text, at);
        if line.is_some() {
            return line;
        }
    }
    any_line(text, at)
}

// What stands before the pairs.
pub fn head_of(text: &[u8]) -> Option<Head>
    ensures { MatchOption result (is_head text.now ≡ false) (λ h. HeadOf text.now h.rows h.entries h.next) }
{
    if !text.starts_with(&BANNER) {
        return None;
    }
    let counts = skip_lines(text, BANNER.len());
    let rows = field_at(text, counts, SPACE)?;
    let columns = field_at(text, rows.next, SPACE)?;
    let entries = field_at(text, columns.next, FEED)?;
    if rows.value != columns.value {
        return None;
    }
    Some(Head {
        rows: rows.value,
        entries: entries.value,
        next: entries.next,
    })
}

// Whether both numbers of a pair are 1 to n.
fn is_inside(n: u64, from: u64, to: u64) -> bool
    ensures { result ≡ is_inside n (pair_at from to) }
{
    (1..=n).contains(&from) && (1..=n).contains(&to)
}

// The pairs from a place on, which should be m: whether each number is 1 to n, if all lines are lines of pairs.
pub fn body_at(text: &[u8], at: usize, n: u64, m: u64) -> Option<bool>
    requires { at ≤ length text.now }
    ensures { MatchOption result (are_lines m (drop at text.now) ≡ false) (λ fits. BodyAt text.now at n m fits) }
{
    let mut fits = true;
    // Stays (3): where the next line begins, the line before says; an iterator of lines would need a promise of its own for that.
    let mut i = at;
    for _e in 0..m {
        let line = line_at(text, i)?;
        fits &= is_inside(n, line.from, line.to);
        i = line.next;
    }
    if i == text.len() { Some(fits) } else { None }
}
