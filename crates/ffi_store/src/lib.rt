// Stores and graphs as C functions: the catalogue, an object's references, Matrix Market texts, names in texts.
#![tactic(auto)]

ghost use Rattle.std.specs.Prelude.{◌≡◌, length};
ghost use Rattle.desk.specs.Kept.{unless_refused};
ghost use Rattle.catalogue.specs.Answer.{header_row};
ghost use Rattle.kullneyra.specs.Calls.{header_answer, header_words, part_answer, part_words, market_answer};
ghost use Rattle.kullneyra.specs.Calls.{LengthIn, ScansIn};
ghost use Rattle.kullneyra.specs.Promise.{Reads, Imports};
ghost use Rattle.matrix.specs.Promise.{Returns};
ghost use Rattle.matrix.specs.Import.{head_row};
ghost use Rattle.matrix.specs.Export.{export_fault, bytes_after, length_for as export_length};
ghost use Rattle.names.specs.Names.{names_of};
ghost use Rattle.names.specs.Call.{texts_of, blank, length_for as scan_length};

use names::{LentNames, LentTexts};

// `header`; result words: n, m, index.
#[unsafe(no_mangle)]
pub extern "C" fn kullneyra_header(bytes: &[u8], res: &mut [u32]) -> u32
    ensures value { result ≡ header_answer bytes.now res.old }
    ensures res_after { res.new ≡ unless_refused (header_answer bytes.now res.old) (header_words (header_row bytes.now)) res.old }
{
    if res.len() != 3 {
        return kullneyra::BUFFER;
    }
    kullneyra::give(catalogue::header(bytes), res)
}

// `read`; result words: n, m, index, starts.
#[unsafe(no_mangle)]
pub extern "C" fn kullneyra_read(
    bytes: &[u8],
    offsets: &mut [u32],
    targets: &mut [u32],
    sizes: &mut [u64],
    starts: &mut [u32],
    res: &mut [u32],
) -> u32
    ensures { Reads bytes.now offsets.old targets.old sizes.old starts.old res.old offsets.new targets.new sizes.new starts.new res.new result }
{
    if res.len() != 4 {
        return kullneyra::BUFFER;
    }
    kullneyra::give_found(catalogue::read(bytes, offsets, targets, sizes, starts), res)
}

// `references`, as where the part starts and how long it is; result words: start, length.
#[unsafe(no_mangle)]
pub extern "C" fn kullneyra_references(
    offsets: &[u32],
    targets: &[u32],
    object: u32,
    res: &mut [u64],
) -> u32
    ensures value { result ≡ part_answer res.old }
    ensures res_after { res.new ≡ unless_refused (part_answer res.old) (part_words offsets.now targets.now object) res.old }
{
    if res.len() != 2 {
        return kullneyra::BUFFER;
    }
    let part = graph::part_of(offsets, targets.len(), object);
    res[0] = part.start as u64;
    res[1] = (part.end - part.start) as u64;
    0
}

// The counts of a Matrix Market text; result words: n, m, index.
#[unsafe(no_mangle)]
pub extern "C" fn kullneyra_market_header(text: &[u8], res: &mut [u32]) -> u32
    ensures value { result ≡ market_answer text.now res.old }
    ensures res_after { res.new ≡ unless_refused (market_answer text.now res.old) (header_words (head_row text.now)) res.old }
{
    if res.len() != 3 {
        return kullneyra::BUFFER;
    }
    kullneyra::give(market::market_header(text), res)
}

// A graph from a Matrix Market text; result words: n, m, index.
#[unsafe(no_mangle)]
pub extern "C" fn kullneyra_import(
    text: &[u8],
    offsets: &mut [u32],
    targets: &mut [u32],
    sizes: &mut [u64],
    res: &mut [u32],
) -> u32
    ensures { Imports text.now offsets.old targets.old sizes.old res.old offsets.new targets.new sizes.new res.new result }
{
    if res.len() != 3 {
        return kullneyra::BUFFER;
    }
    kullneyra::give(market::import(text, offsets, targets, sizes), res)
}

// How many bytes the Matrix Market text of a graph has; one result word.
#[unsafe(no_mangle)]
pub extern "C" fn kullneyra_export_length(offsets: &[u32], targets: &[u32], res: &mut [u64]) -> u32
    ensures { LengthIn (export_length offsets.now targets.now) res.old res.new result }
{
    kullneyra::give_length(market::export_length(offsets, targets), res)
}

// The Matrix Market text of a graph; there are no result words.
#[unsafe(no_mangle)]
pub extern "C" fn kullneyra_export(offsets: &[u32], targets: &[u32], out: &mut [u8]) -> u32
    ensures value { result ≡ export_fault offsets.now targets.now (length out.old) }
    ensures out_after { out.new ≡ bytes_after offsets.now targets.now out.old }
    ensures returns { result ≡ 0 → Returns offsets.now targets.now }
{
    u32::from(refusal::number_of(&market::export(offsets, targets, out)))
}

// How many mentions of names texts have; one result word.
#[unsafe(no_mangle)]
pub extern "C" fn kullneyra_scan_length(
    objects: u32,
    width: u32,
    names: &[u8],
    named: &[u32],
    texts: &[u8],
    ends: &[u64],
    owners: &[u32],
    work: &mut [u32],
    res: &mut [u64],
) -> u32
    ensures length_in { LengthIn (scan_length objects (names_of width names.now named.now)
        (texts_of texts.now ends.now owners.now) (blank work.old)) res.old res.new result }
    ensures work_unchanged { work.new ≡ work.old }
{
    kullneyra::give_length(
        scan::scan_length(
            objects,
            LentNames {
                width: width as usize,
                bytes: names,
                objects: named,
            },
            LentTexts {
                bytes: texts,
                ends,
                owners,
            },
            work,
        ),
        res,
    )
}

// The mentions, as the owners of the texts and the objects that are named; there are no result words.
#[unsafe(no_mangle)]
pub extern "C" fn kullneyra_scan(
    objects: u32,
    width: u32,
    names: &[u8],
    named: &[u32],
    texts: &[u8],
    ends: &[u64],
    owners: &[u32],
    work: &mut [u32],
    from: &mut [u32],
    to: &mut [u32],
) -> u32
    ensures { ScansIn objects (names_of width names.now named.now)
        (texts_of texts.now ends.now owners.now)
        work.old from.old to.old work.new from.new to.new result }
{
    let names = LentNames {
        width: width as usize,
        bytes: names,
        objects: named,
    };
    let texts = LentTexts {
        bytes: texts,
        ends,
        owners,
    };
    u32::from(refusal::number_of(&scan::scan(objects, names, texts, work, from, to)))
}
