// The catalogue of SPECIFICATION 1: the calls `header` and `read`.
#![tactic(auto)]

mod check;

ghost use Rattle.std.specs.Prelude.{◌≡◌, ◌≤◌};
ghost use Rattle.graph.specs.Limits.{most_objects};
ghost use Rattle.catalogue.specs.Answer.{row, found_row, header_row, misfits, Reads};
ghost use Rattle.catalogue.specs.Acceptance.{Acceptance};

pub use faults::Header;
use records::Kind;
use refusal::Refusal;

// The words of the start buffer: the index and the most leases.
pub const STARTS: usize = graph::MOST_STARTS;

// What `read` answers: what the header says, and how many starts there are.
#[derive(Clone, Copy, Debug, PartialEq, Eq)]
pub struct Found {
    pub n: u32,
    pub m: u32,
    pub index: u32,
    pub starts: u32,
}

// Reads only the header record.
pub fn header(bytes: &[u8]) -> Result<Header, Refusal>
    ensures { row result ≡ header_row bytes.now }
{
    faults::record_fault(bytes, u16::from(Kind::Header), 0)?;
    Ok(faults::header_of(bytes))
}

// Whether a lent length is not exactly the catalogue's.
fn lent_wrong(n: u32, m: u32, offsets: usize, targets: usize, sizes: usize, starts: usize) -> bool
    requires { n ≤ most_objects }
    ensures { result ≡ misfits n m offsets targets sizes starts }
{
    offsets != n as usize + 1 || targets != m as usize || sizes != n as usize || starts != STARTS
}

// Checks the whole catalogue, then the lent lengths, and then fills the buffers.
pub fn read(
    bytes: &[u8],
    offsets: &mut [u32],
    targets: &mut [u32],
    sizes: &mut [u64],
    starts: &mut [u32],
) -> Result<Found, Refusal>
    ensures reads { Reads bytes.now offsets.old targets.old sizes.old starts.old (found_row result)
        offsets.new targets.new sizes.new starts.new }
    ensures acceptance { Acceptance bytes.now (found_row result)
        offsets.new targets.new sizes.new starts.new }
{
    check::catalogue_fault(bytes)?;
    let Header { n, m, index } = faults::header_of(bytes);
    if lent_wrong(
        n,
        m,
        offsets.len(),
        targets.len(),
        sizes.len(),
        starts.len(),
    ) {
        return Err(Refusal::Buffer);
    }
    fill::fill_sizes(bytes, sizes);
    fill::fill_graph(bytes, n, offsets, targets);
    let starts = fill::fill_starts(bytes, check::leases_place(n, m), index, starts);
    Ok(Found {
        n,
        m,
        index,
        starts,
    })
}
