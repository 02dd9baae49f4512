// The deck as text, a card of six digits to a line.
ghost use Rattle.std.specs.Prelude.{◌<◌};
ghost use Rattle.text.specs.Pages.{Room, Wrote};
ghost use Rattle.deck.specs.Text.{card_line, deck_text, deck_bytes, Prints};

use cards::table;
use text::Page;

// How many bytes the text has.
pub const TEXT_LENGTH: usize = 5040;

// Writes a card's line.
fn put_card(page: &mut Page, n: u32)
    requires room { Room 7 page.old }
    requires six_digits { n < 1000000 }
    ensures { Wrote 7 (card_line n) page.old page.new }
{
    for digit in hands::digits_of(n) {
        page.put(&[b'0' + digit as u8]);
    }
    page.put(b"\n");
}

// Writes the cards in their order.
fn put_cards(page: &mut Page)
    requires { Room deck_bytes page.old }
    ensures { Wrote deck_bytes deck_text page.old page.new }
{
    for n in table::all() {
        put_card(page, *n);
    }
}

// Writes the deck to the buffer's beginning, leaves the bytes behind it, and answers how many bytes
// it is. A buffer with less room gets nothing.
pub fn put_deck(out: &mut [u8]) -> usize
    ensures { Prints out.old out.new result }
{
    if out.len() < TEXT_LENGTH {
        return 0;
    }
    let mut page = Page { out, at: 0 };
    put_cards(&mut page);
    page.at
}
