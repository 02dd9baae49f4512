// The catalogue's records (SPECIFICATION 1): their layout, what is read from them, and the store that
// they are. The definitions stand in specs/, and what is proved of them in proofs/; here are the kinds
// and the lengths. Crates `faults` and `fill` have the code on records, `catalogue` the calls.
#![tactic(auto)]

ghost use Rattle.std.specs.Prelude.{◌≡◌};
ghost use Rattle.records.specs.Kinds.{kind_number, decoded};

use refusal::Refusal;

// The kinds of records.
#[derive(Clone, Copy, Debug, PartialEq, Eq)]
pub enum Kind {
    Header,
    Object,
    Reference,
    Lease,
    Subject,
}

// What is due behind the most leases: no kind.
// Stays (1): it is the number of no kind, and what is due may be any number.
pub const NOTHING: u16 = 0;

// The length of a header's record, of an object's, a reference's or a subject's, and of a lease's.
pub const HEADER_LENGTH: usize = 16;

pub const RECORD_LENGTH: usize = 12;

pub const LEASE_LENGTH: usize = 8;

// The number that a record says its kind by.
impl From<Kind> for u16 {
    ghost from_gives = { λ kind n. n ≡ kind_number kind };

    fn from(kind: Kind) -> u16 {
        match kind {
            Kind::Header => 1,
            Kind::Object => 2,
            Kind::Reference => 3,
            Kind::Lease => 4,
            Kind::Subject => 5,
        }
    }
}

// The kind of a record that says this number.
impl TryFrom<u16> for Kind {
    type Error = Refusal;

    ghost try_from_gives = { λ number kind. kind ≡ decoded number };

    fn try_from(number: u16) -> Result<Kind, Refusal> {
        match number {
            1 => Ok(Kind::Header),
            2 => Ok(Kind::Object),
            3 => Ok(Kind::Reference),
            4 => Ok(Kind::Lease),
            5 => Ok(Kind::Subject),
            0 | 6..=65535 => Err(Refusal::Kind),
        }
    }
}
