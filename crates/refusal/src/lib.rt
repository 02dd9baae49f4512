// Refusals by cause and by number (SPECIFICATION 2), and what a check finds.
#![tactic(auto)]

ghost use Rattle.std.specs.Prelude.{◌≡◌};
ghost use Rattle.refusal.specs.Number.{number, number_of};

// Why a call is refused.
#[derive(Clone, Copy, Debug, PartialEq, Eq)]
pub enum Refusal {
    // 1: too few bytes left for a record, or promised records missing.
    Short,
    // 2: kind unknown, or length not that of the kind.
    Kind,
    // 3: record of a known kind out of its place, or one too many.
    Place,
    // 4: the number of objects or of references outside its range.
    Count,
    // 5: an object number not below n.
    Object,
    // 6: a size above the largest.
    Size,
    // 7: a lent buffer of the wrong length.
    Buffer,
    // 8: workers, batch or cutoff outside its range.
    Setting,
    // 9: schedule of odd length, or an entry whose worker is not below W.
    Schedule,
    // 10: offsets and targets that are no graph.
    Graph,
    // 11: a file, or a number in it, too large for the program.
    Large,
    // 12: a file that cannot be read.
    File,
    // 13: no start, or more leases than a catalogue may have.
    Starts,
    // 14: saved words that hold no sound collection.
    Saved,
    // 15: a card that is not in the deck, or more workers than a card has.
    Cards,
    // 16: a seed whose first word is 0.
    Seed,
    // 17: a marked object that has a reference to an unmarked one.
    Marks,
    // 18: a text that is no Matrix Market file of a graph.
    Text,
    // 19: names that do not ascend or are no lower-case hexadecimal digits, or of width 0.
    Names,
}

// What a check finds: no fault, or why the call is refused.
pub type Checked = Result<(), Refusal>;

// The number of a cause.
impl From<Refusal> for u8 {
    ghost from_gives = { λ r n. n ≡ number r };

    fn from(refusal: Refusal) -> u8 {
        match refusal {
            Refusal::Short => 1,
            Refusal::Kind => 2,
            Refusal::Place => 3,
            Refusal::Count => 4,
            Refusal::Object => 5,
            Refusal::Size => 6,
            Refusal::Buffer => 7,
            Refusal::Setting => 8,
            Refusal::Schedule => 9,
            Refusal::Graph => 10,
            Refusal::Large => 11,
            Refusal::File => 12,
            Refusal::Starts => 13,
            Refusal::Saved => 14,
            Refusal::Cards => 15,
            Refusal::Seed => 16,
            Refusal::Marks => 17,
            Refusal::Text => 18,
            Refusal::Names => 19,
        }
    }
}

// The number that an answer is told by, 0 for no fault.
pub fn number_of<T: Drop>(answer: &Result<T, Refusal>) -> u8
    ensures { result ≡ number_of answer.now }
{
    match answer {
        Ok(_) => 0,
        Err(refusal) => u8::from(*refusal),
    }
}
