// The mentions of a text, found one after the other.
ghost use Rattle.std.specs.Prelude.{◌≡◌, ◌≤◌, List, ℕ, length, drop};
ghost use Rattle.std.specs.Iterator.{YieldsFirst, item_count};
ghost use Rattle.names.specs.Names.{Names};
ghost use Rattle.names.specs.Mentions.{mentions};
ghost use Rattle.names.specs.Lent.{names_in};
ghost use Rattle.scan.specs.Passing.{Ready, NextIs};

use names::LentNames;
use std::marker::Model;

// Names that pass the checks, with their index. Clauses see the names.
#[derive(Drop)]
pub struct Finder<'a> {
    names: LentNames<'a>,
    index: &'a [u32],
}

impl<'a> Model for Finder<'a> {
    ghost Value = { Names };

    ghost view = { λ f. names_in f.names };

    ghost invariant = { λ f. Ready (names_in f.names) f.index.now };
}

// The place of a mention, and the object mentioned.
#[derive(Clone, Copy)]
struct Mention {
    place: usize,
    object: u32,
}

impl<'a> Finder<'a> {
    pub fn new(names: LentNames<'a>, index: &'a [u32]) -> Finder<'a>
        requires { Ready (names_in names) index.now }
        ensures { result ≡ names_in names.entry }
    {
        Finder { names, index }
    }

    // The mentions of a text.
    pub fn mentions(&'a self, text: &'a [u8]) -> Mentions<'a>
        ensures all { result ≡ mentions self.now text.now }
        ensures few { length result ≤ length text.now }
    {
        let _ = &self.index;
        Mentions {
            finder: self,
            text,
            at: 0,
            sure: 0,
        }
    }

    // The next mention of a text from a place on. The bytes up to `sure` were looked at before.
    fn next_mention(&self, text: &[u8], from: usize, sure: usize) -> Option<Mention>
        requires { (from ≤ length text.now) × (from ≤ sure) }
        ensures { NextIs self.now text.now from result }
    {
        let names = &self.names;
        let count = names.objects.len();
        let mut at = from;
        let mut known = sure;
        while let Some(place) = lookup::next_place(text, at, known, names.width, self.index) {
            let end = place + names.width;
            let window = &text[place..end];
            if let Some(k) = lookup::find(names.bytes, names.width, count, self.index, window) {
                return Some(Mention {
                    place,
                    object: names.objects[k],
                });
            }
            at = place + 1;
            known = end;
        }
        None
    }
}

// The mentions of a text that are left: those from a place on, where its bytes up to another one
// were looked at. Clauses see the objects.
#[derive(Drop)]
pub struct Mentions<'a> {
    finder: &'a Finder<'a>,
    text: &'a [u8],
    at: usize,
    sure: usize,
}

impl<'a> Model for Mentions<'a> {
    ghost Value = { List ℕ };

    ghost view = { λ m. mentions m.finder.now (drop m.at m.text.now) };

    ghost invariant = { λ m. (m.at ≤ length m.text.now) × (m.at ≤ m.sure) };
}

impl<'a> Iterator for Mentions<'a> {
    type Item = u32;

    ghost next_gives = { YieldsFirst (λ m. m) };

    ghost remaining = { item_count (λ m. m) };

    fn next(&mut self) -> Option<u32> {
        let finder = self.finder;
        let found = finder.next_mention(self.text, self.at, self.sure)?;
        self.at = found.place + 1;
        self.sure = found.place + finder.names.width;
        Some(found.object)
    }
}
