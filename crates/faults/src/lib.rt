// The fault of one record: the checks 1 to 6 and 13 of SPECIFICATION 2.
#![tactic(auto)]

ghost use Rattle.std.specs.Prelude.{◌≡◌, ◌≤◌, length};
ghost use Rattle.records.specs.Reading.{kind_of, header_kind, object_kind, reference_kind, lease_kind, length_field, Heads};
ghost use Rattle.records.specs.Reading.{misplaced, overfull, miscounted, misnamed, oversized, contents_fault, record_fault};
ghost use Rattle.refusal.specs.Order.{raise};
ghost use Rattle.refusal.specs.Number.{number_of};

use graph::{LARGEST_SIZE, MOST_OBJECTS, MOST_REFERENCES};
use records::{HEADER_LENGTH, Kind, LEASE_LENGTH, NOTHING, RECORD_LENGTH};
use refusal::{Checked, Refusal};
use slices::{word2, word4, word8};

// What a header says.
#[derive(Clone, Copy, Debug, PartialEq, Eq)]
pub struct Header {
    pub n: u32,
    pub m: u32,
    pub index: u32,
}

// The three numbers of a header record.
pub fn header_of(bytes: &[u8]) -> Header
    requires { 16 ≤ length bytes.now }
    ensures { Heads bytes.now result.n result.m result.index }
{
    Header {
        n: word4(bytes, 4),
        m: word4(bytes, 8),
        index: word4(bytes, 12),
    }
}

// The fault of the record with which the bytes begin, where the kind with this number is due, or NOTHING.
#[tactic(auto, unfolding(records::specs::Reading::record_fault))]
pub fn record_fault(bytes: &[u8], due: u16, n: u32) -> Checked
    ensures { number_of result ≡ record_fault due n bytes.now }
{
    if bytes.len() < 4 {
        return Err(Refusal::Short);
    }
    let long = usize::from(word2(bytes, 0));
    if bytes.len() < long {
        return Err(Refusal::Short);
    }
    kind_fault(bytes, long, word2(bytes, 2), due, n)
}

// 2 and later of a record that is there as far as its length says. The kind decides which length it
// must have, where it may stand, and what its contents must be.
fn kind_fault(bytes: &[u8], long: usize, number: u16, due: u16, n: u32) -> Checked
    requires { (long ≡ length_field bytes.now) × (long ≤ length bytes.now) }
    ensures { number_of result ≡ contents_fault (kind_of number) due n bytes.now }
{
    match Kind::try_from(number) {
        Ok(Kind::Header) => {
            if long != HEADER_LENGTH {
                return Err(Refusal::Kind);
            }
            if due != u16::from(Kind::Header) {
                return Err(Refusal::Place);
            }
            header_fault(bytes)
        }
        Ok(Kind::Object) => {
            if long != RECORD_LENGTH {
                return Err(Refusal::Kind);
            }
            if due != u16::from(Kind::Object) {
                return Err(Refusal::Place);
            }
            object_fault(bytes)
        }
        Ok(Kind::Reference | Kind::Subject) => {
            if long != RECORD_LENGTH {
                return Err(Refusal::Kind);
            }
            if due != u16::from(Kind::Reference) {
                return Err(Refusal::Place);
            }
            reference_fault(bytes, n)
        }
        Ok(Kind::Lease) => {
            if long != LEASE_LENGTH {
                return Err(Refusal::Kind);
            }
            lease_fault(bytes, due, n)
        }
        Err(unknown) => Err(unknown),
    }
}

// 4 and 5 of a header.
fn header_fault(bytes: &[u8]) -> Checked
    requires { 16 ≤ length bytes.now }
    ensures { number_of result ≡ raise (miscounted header_kind bytes.now) 4 (raise (misnamed header_kind 0 bytes.now) 5 0) }
{
    let head = header_of(bytes);
    let n = head.n;
    if n < 1 || n as usize > MOST_OBJECTS || head.m as usize > MOST_REFERENCES {
        return Err(Refusal::Count);
    }
    if head.index >= n {
        return Err(Refusal::Object);
    }
    Ok(())
}

// 6 of an object.
fn object_fault(bytes: &[u8]) -> Checked
    requires { 12 ≤ length bytes.now }
    ensures { number_of result ≡ raise (oversized object_kind bytes.now) 6 0 }
{
    if word8(bytes, 4) > LARGEST_SIZE {
        return Err(Refusal::Size);
    }
    Ok(())
}

// 5 of a reference or a subject.
fn reference_fault(bytes: &[u8], n: u32) -> Checked
    requires { 12 ≤ length bytes.now }
    ensures { number_of result ≡ raise (misnamed reference_kind n bytes.now) 5 0 }
{
    if word4(bytes, 4) >= n || word4(bytes, 8) >= n {
        return Err(Refusal::Object);
    }
    Ok(())
}

// 3, 13 and 5 of a lease. Behind the most leases one more is too many, and not out of its place.
fn lease_fault(bytes: &[u8], due: u16, n: u32) -> Checked
    requires { 8 ≤ length bytes.now }
    ensures { number_of result ≡ raise (misplaced due lease_kind) 3
        (raise (overfull due lease_kind) 13 (raise (misnamed lease_kind n bytes.now) 5 0)) }
{
    if due == NOTHING {
        return Err(Refusal::Starts);
    }
    if due != u16::from(Kind::Lease) {
        return Err(Refusal::Place);
    }
    if word4(bytes, 4) >= n {
        return Err(Refusal::Object);
    }
    Ok(())
}
