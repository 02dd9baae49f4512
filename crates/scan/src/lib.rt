// The calls `scan_length` and `scan` (SPECIFICATION 14): the mentions of names in texts. Any names,
// texts and lists may come in.
#![tactic(auto)]

mod passes;

ghost use Rattle.std.specs.Prelude.{◌≡◌, true, ◌*◌, length};
ghost use Rattle.refusal.specs.Number.{number_of};
ghost use Rattle.desk.specs.Length.{length_row};
ghost use Rattle.names.specs.Names.{ascending};
ghost use Rattle.names.specs.Call.{names_misfit, blank, ends_right, fault, length_for, scan_fault, from_after, to_after};
ghost use Rattle.names.specs.Lent.{names_in, texts_in};
ghost use Rattle.scan.specs.Passing.{CountedAll, Puttable, PutAll, Filled};

use crate::passes::Finder;
use names::{LentNames, LentTexts, WORK};
use refusal::{Checked, Refusal};

// Check 7 of names: not as many bytes as so many names have. The product might wrap.
fn names_misfit(names: &LentNames) -> bool
    ensures { result ≡ names_misfit (length names.now.bytes.now) names.now.width (length names.now.objects.now) }
{
    names.width.checked_mul(names.objects.len()) != Some(names.bytes.len())
}

// Whether there are as many work words as the index takes, and all of them 0.
fn is_blank(work: &[u32]) -> bool
    ensures { result ≡ blank work.now }
{
    work.len() == WORK && graph::is_below(1, work)
}

// Check 10 of the ends of texts.
fn ends_right(ends: &[u64], long: usize) -> bool
    ensures { result ≡ ends_right 0 ends.now long }
{
    let mut start = 0;
    for &end in ends {
        if end < start {
            return false;
        }
        start = end;
    }
    start == long as u64
}

// Whether each name is below the one after it.
fn is_ascending(names: &LentNames) -> bool
    requires { length names.now.bytes.now ≡ names.now.width * length names.now.objects.now }
    ensures { result ≡ ascending (names_in names.now) }
{
    (1..names.objects.len()).all(|k| lookup::compare(names.name(k - 1), names.name(k)).is_lt())
}

// The checks of both calls, in their order.
fn check(objects: u32, names: &LentNames, texts: &LentTexts, work: &[u32]) -> Checked
    ensures { number_of result ≡ fault objects (names_in names.now) (texts_in texts.now) (blank work.now) }
{
    let below = objects as usize;
    if checks::objects_outside(objects) {
        return Err(Refusal::Count);
    }
    if names_misfit(names) || texts.owners.len() != texts.ends.len() || !is_blank(work) {
        return Err(Refusal::Buffer);
    }
    if !ends_right(texts.ends, texts.bytes.len()) {
        return Err(Refusal::Graph);
    }
    if !graph::is_below(below, names.objects) || !graph::is_below(below, texts.owners) {
        return Err(Refusal::Object);
    }
    if names.width == 0 || !lookup::all_digits(names.bytes) || !is_ascending(names) {
        return Err(Refusal::Names);
    }
    Ok(())
}

// How many mentions all texts have.
fn count_all<'a>(finder: &'a Finder<'a>, texts: &LentTexts<'a>) -> usize
    requires { ends_right 0 texts.now.ends.now (length texts.now.bytes.now) ≡ true }
    ensures { CountedAll finder.now (texts_in texts.now) result }
{
    let mut count: usize = 0;
    let mut start: usize = 0;
    for &end in texts.ends {
        let end = end as usize;
        count += finder.mentions(&texts.bytes[start..end]).count();
        start = end;
    }
    count
}

// Writes all mentions to both lists, which are as long as they are many.
// Stays (3): the place in the lists goes on from one text to the next, so no `enumerate` counts it.
fn put_all<'a>(finder: &'a Finder<'a>, texts: &LentTexts<'a>, from: &mut [u32], to: &mut [u32])
    requires { Puttable finder.now (texts_in texts.now) from.old to.old }
    ensures { PutAll finder.now (texts_in texts.now) from.new to.new }
{
    let mut top: usize = 0;
    let mut start: usize = 0;
    for (&end, &owner) in texts.ends.iter().zip(texts.owners) {
        let end = end as usize;
        for object in finder.mentions(&texts.bytes[start..end]) {
            from[top] = owner;
            to[top] = object;
            top += 1;
        }
        start = end;
    }
}

// The mentions in both lists, unless these are of another length.
fn fill<'a>(
    finder: &'a Finder<'a>,
    texts: &LentTexts<'a>,
    from: &mut [u32],
    to: &mut [u32],
) -> Checked
    requires right { ends_right 0 texts.now.ends.now (length texts.now.bytes.now) ≡ true }
    requires owned { length texts.now.owners.now ≡ length texts.now.ends.now }
    ensures { Filled finder.now (texts_in texts.now) from.old to.old from.new to.new result }
{
    let count = count_all(finder, texts);
    if from.len() != count || to.len() != count {
        return Err(Refusal::Buffer);
    }
    put_all(finder, texts, from, to);
    Ok(())
}

// How many mentions there are. The work words are 0 again.
pub fn scan_length(
    objects: u32,
    names: LentNames,
    texts: LentTexts,
    work: &mut [u32],
) -> Result<u64, Refusal>
    ensures result_value { length_row result ≡ length_for objects (names_in names.entry) (texts_in texts.entry) (blank work.old) }
    ensures work_unchanged { work.new ≡ work.old }
{
    check(objects, &names, &texts, work)?;
    lookup::put_index(names.bytes, names.width, names.objects.len(), work);
    let count = count_all(&Finder::new(names, work), &texts);
    lookup::clear_index(work);
    Ok(count as u64)
}

// The mentions, as two lists of exactly that length. The work words are 0 again.
pub fn scan(
    objects: u32,
    names: LentNames,
    texts: LentTexts,
    work: &mut [u32],
    from: &mut [u32],
    to: &mut [u32],
) -> Checked
    ensures result_value { number_of result ≡ scan_fault objects (names_in names.entry) (texts_in texts.entry) (blank work.old) (length from.old) (length to.old) }
    ensures work_unchanged { work.new ≡ work.old }
    ensures from_after { from.new ≡ from_after objects (names_in names.entry) (texts_in texts.entry) (blank work.old) from.old to.old }
    ensures to_after { to.new ≡ to_after objects (names_in names.entry) (texts_in texts.entry) (blank work.old) from.old to.old }
{
    check(objects, &names, &texts, work)?;
    lookup::put_index(names.bytes, names.width, names.objects.len(), work);
    let filled = fill(&Finder::new(names, work), &texts, from, to);
    lookup::clear_index(work);
    filled
}
