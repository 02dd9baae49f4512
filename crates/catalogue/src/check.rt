// The checks of the whole catalogue, record by record.
ghost use Rattle.std.specs.Prelude.{◌≡◌, true, ◌||◌, ◌+◌, ◌*◌, ◌≤◌, length, drop, eqb};
ghost use Rattle.records.specs.Reading.{due_at, dues, leases_at, record_fault, surplus_fault, lease_faults, faults, Clear, catalogue_fault};
ghost use Rattle.records.specs.Kinds.{kind_number};
ghost use Rattle.records.specs.Store.{most_leases};
ghost use Rattle.refusal.specs.Number.{number_of};
ghost use Rattle.graph.specs.Limits.{most_objects, most_references};
ghost use Rattle.records.specs.Fill.{Listed};

use faults::{header_of, record_fault};
use graph::LARGEST_SIZE;
use records::{HEADER_LENGTH, Kind, LEASE_LENGTH, NOTHING, RECORD_LENGTH};
use refusal::Checked;
use slices::{word4, word8};

// The most leases.
const MOST_LEASES: u32 = 256;

// The length and the kind of an object as one word, of a reference, and of a subject.
const OBJECT_HEAD: u32 = 131084;

const REFERENCE_HEAD: u32 = 196620;

const SUBJECT_HEAD: u32 = 327692;

// The first fault of the whole catalogue.
pub fn catalogue_fault(bytes: &[u8]) -> Checked
    ensures { number_of result ≡ catalogue_fault bytes.now }
{
    record_fault(bytes, u16::from(Kind::Header), 0)?;
    let head = header_of(bytes);
    records_fault(bytes, head.n, head.m)
}

// Where the leases begin, behind n objects and m references.
pub fn leases_place(n: u32, m: u32) -> usize
    requires { (n ≤ most_objects) × (m ≤ most_references) }
    ensures { result ≡ leases_at n m }
{
    HEADER_LENGTH + RECORD_LENGTH * (n as usize) + RECORD_LENGTH * (m as usize)
}

// The first fault after the header, where n objects and then m references are due, and then leases.
// Most catalogues have none up to the leases, so a quick look comes first.
fn records_fault(bytes: &[u8], n: u32, m: u32) -> Checked
    requires { (16 ≤ length bytes.now) × ((n ≤ most_objects) × (m ≤ most_references)) }
    ensures { number_of result ≡ faults n (dues n m) (drop 16 bytes.now) }
{
    if records_right(bytes, n, m) {
        return leases_fault(bytes, leases_place(n, m), n);
    }
    first_fault(bytes, n, m)
}

// The quick look: true only where the n objects and the m references are there and have no fault.
fn records_right(bytes: &[u8], n: u32, m: u32) -> bool
    requires { (n ≤ most_objects) × (m ≤ most_references) }
    ensures { result ≡ true → Listed n m bytes.now }
{
    let end = n as usize + m as usize;
    if bytes.len() < HEADER_LENGTH + RECORD_LENGTH * end {
        return false;
    }
    if !objects_right(bytes, n as usize) {
        return false;
    }
    references_right(bytes, n, end)
}

// The objects. Every record is looked at, so that the loop is compiled without a jump out of it; each
// test has its own flag, so that none waits for another.
fn objects_right(bytes: &[u8], n: usize) -> bool
    requires { 16 + 12 * n ≤ length bytes.now }
    ensures { result ≡ true → Clear n 0 n bytes.now }
{
    let mut headed = true;
    let mut small = true;
    for i in 0..n {
        let at = HEADER_LENGTH + RECORD_LENGTH * i;
        headed &= word4(bytes, at) == OBJECT_HEAD;
        small &= word8(bytes, at + 4) <= LARGEST_SIZE;
    }
    headed && small
}

// The references and subjects, up to the record with the number `end`, in the same way.
fn references_right(bytes: &[u8], n: u32, end: usize) -> bool
    requires { (n ≤ end) × (16 + 12 * end ≤ length bytes.now) }
    ensures { result ≡ true → Clear n n end bytes.now }
{
    let mut headed = true;
    let mut from_below = true;
    let mut to_below = true;
    for i in n as usize..end {
        let at = HEADER_LENGTH + RECORD_LENGTH * i;
        headed &= is_link(word4(bytes, at));
        from_below &= word4(bytes, at + 4) < n;
        to_below &= word4(bytes, at + 8) < n;
    }
    headed && from_below && to_below
}

// Whether a record that begins so is a reference or a subject.
fn is_link(head: u32) -> bool
    ensures { result ≡ (eqb head 196620 || eqb head 327692) }
{
    (head == REFERENCE_HEAD) | (head == SUBJECT_HEAD)
}

// Record by record, to the first one with a fault.
fn first_fault(bytes: &[u8], n: u32, m: u32) -> Checked
    requires { (16 ≤ length bytes.now) × ((n ≤ most_objects) × (m ≤ most_references)) }
    ensures { number_of result ≡ faults n (dues n m) (drop 16 bytes.now) }
{
    let mut at = HEADER_LENGTH;
    for i in 0..n + m {
        fault_at(bytes, at, u16::from(due_at(i, n)), n)?;
        at += RECORD_LENGTH;
    }
    leases_fault(bytes, at, n)
}

// The kind of the record after the header with this number.
fn due_at(i: u32, n: u32) -> Kind
    ensures { kind_number result ≡ due_at n i }
{
    if i < n { Kind::Object } else { Kind::Reference }
}

// The leases, which go to the end of the bytes.
fn leases_fault(bytes: &[u8], from: usize, n: u32) -> Checked
    requires { from ≤ length bytes.now }
    ensures { number_of result ≡ lease_faults n most_leases (drop from bytes.now) }
{
    let mut at = from;
    for k in 0..MOST_LEASES {
        if at == bytes.len() {
            return Ok(());
        }
        fault_at(bytes, at, u16::from(Kind::Lease), n)?;
        at += LEASE_LENGTH;
    }
    surplus_fault(bytes, at, n)
}

// What still stands behind the most leases.
fn surplus_fault(bytes: &[u8], at: usize, n: u32) -> Checked
    requires { at ≤ length bytes.now }
    ensures { number_of result ≡ surplus_fault n (drop at bytes.now) }
{
    if at == bytes.len() {
        return Ok(());
    }
    fault_at(bytes, at, NOTHING, n)
}

// The fault of the record at a place.
fn fault_at(bytes: &[u8], at: usize, due: u16, n: u32) -> Checked
    requires { at ≤ length bytes.now }
    ensures { number_of result ≡ record_fault due n (drop at bytes.now) }
{
    record_fault(&bytes[at..], due, n)
}
