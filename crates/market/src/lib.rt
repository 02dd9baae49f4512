// Matrix Market (SPECIFICATION 13): a graph read from the text of a coordinate pattern file and
// written as one. Any text, offsets, targets and buffers may come in.
#![tactic(auto)]

mod filling;

ghost use Rattle.std.specs.Prelude.{◌≡◌, length};
ghost use Rattle.refusal.specs.Number.{number_of};
ghost use Rattle.catalogue.specs.Answer.{row};
ghost use Rattle.desk.specs.Length.{length_row};
ghost use Rattle.matrix.specs.Import.{head_row, Imports};
ghost use Rattle.matrix.specs.Promise.{Accepts, Returns};
ghost use Rattle.matrix.specs.Export.{length_for, export_fault, bytes_after};

use catalogue::Header;
use refusal::{Checked, Refusal};

// The counts of a text, from what stands before its pairs.
pub fn market_header(text: &[u8]) -> Result<Header, Refusal>
    ensures { row result ≡ head_row text.now }
{
    let Some(head) = parse::head_of(text) else {
        return Err(Refusal::Text);
    };
    if checks::counts_outside(head.rows as usize, head.entries as usize) {
        return Err(Refusal::Count);
    }
    Ok(Header {
        n: head.rows as u32,
        m: head.entries as u32,
        index: 0,
    })
}

// Checks the whole text, then the lent lengths, and then fills the buffers.
pub fn import(
    text: &[u8],
    offsets: &mut [u32],
    targets: &mut [u32],
    sizes: &mut [u64],
) -> Result<Header, Refusal>
    ensures imports { Imports text.now offsets.old targets.old sizes.old (row result)
        offsets.new targets.new sizes.new }
    ensures accepts { Accepts text.now (row result) }
{
    let Some(head) = parse::head_of(text) else {
        return Err(Refusal::Text);
    };
    let n = head.rows as usize;
    let m = head.entries as usize;
    let Some(fits) = parse::body_at(text, head.next, head.rows, head.entries) else {
        return Err(Refusal::Text);
    };
    if checks::counts_outside(n, m) {
        return Err(Refusal::Count);
    }
    if !fits {
        return Err(Refusal::Object);
    }
    if offsets.len() != n + 1 || targets.len() != m || sizes.len() != n {
        return Err(Refusal::Buffer);
    }
    filling::fill_graph(text, head.next, n as u32, offsets, targets);
    sizes.fill(0);
    Ok(Header {
        n: n as u32,
        m: m as u32,
        index: 0,
    })
}

// How long the text of a graph is.
pub fn export_length(offsets: &[u32], targets: &[u32]) -> Result<u64, Refusal>
    ensures { length_row result ≡ length_for offsets.now targets.now }
{
    checks::check_graph(offsets, targets)?;
    Ok(print::text_length(offsets, targets) as u64)
}

// Writes the text of a graph into a buffer of exactly its length.
pub fn export(offsets: &[u32], targets: &[u32], out: &mut [u8]) -> Checked
    ensures result_value { number_of result ≡ export_fault offsets.now targets.now (length out.old) }
    ensures out_after { out.new ≡ bytes_after offsets.now targets.now out.old }
    ensures returns { number_of result ≡ 0 → Returns offsets.now targets.now }
{
    checks::check_graph(offsets, targets)?;
    if out.len() != print::text_length(offsets, targets) {
        return Err(Refusal::Buffer);
    }
    print::put_text(out, offsets, targets);
    Ok(())
}
