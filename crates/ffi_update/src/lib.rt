// What is worked out of a graph as C functions: hops, and references that are added and taken out.
#![tactic(auto)]

ghost use Rattle.kullneyra.specs.Calls.{LengthIn, HopsIn, AddsIn, RemovesIn};
ghost use Rattle.hops.specs.Call.{length_for as hop_length};
ghost use Rattle.updates.specs.Call.{length_for as update_length};

// How many work words the hop counts take; one result word.
#[unsafe(no_mangle)]
pub extern "C" fn kullneyra_hop_words(objects: u32, res: &mut [u64]) -> u32
    ensures { LengthIn (hop_length objects) res.old res.new result }
{
    let words = hops::hop_words(objects);
    kullneyra::give_length(words, res)
}

// The hop count of each object; there are no result words.
#[unsafe(no_mangle)]
pub extern "C" fn kullneyra_hops(
    offsets: &[u32],
    targets: &[u32],
    starts: &[u32],
    hops: &mut [u32],
    work: &mut [u32],
) -> u32
    ensures { HopsIn offsets.now targets.now starts.now hops.old work.old hops.new work.new result }
{
    u32::from(refusal::number_of(&hops::hops(offsets, targets, starts, hops, work)))
}

// How many work words adding and taking out references take; result word: words.
#[unsafe(no_mangle)]
pub extern "C" fn kullneyra_update_words(objects: u32, res: &mut [u64]) -> u32
    ensures { LengthIn (update_length objects) res.old res.new result }
{
    let words = updates::update_words(objects);
    kullneyra::give_length(words, res)
}

// References are added, and the marks brought up to date; there are no result words.
#[unsafe(no_mangle)]
pub extern "C" fn kullneyra_add(
    offsets: &[u32],
    targets: &[u32],
    from: &[u32],
    to: &[u32],
    new_offsets: &mut [u32],
    new_targets: &mut [u32],
    marks: &mut [u8],
    work: &mut [u32],
) -> u32
    ensures { AddsIn offsets.now targets.now from.now to.now
        new_offsets.old new_targets.old marks.old work.old
        new_offsets.new new_targets.new marks.new work.new result }
{
    u32::from(refusal::number_of(&add::add(
        offsets,
        targets,
        from,
        to,
        new_offsets,
        new_targets,
        marks,
        work,
    )))
}

// References are taken out, and marks made afresh; there are no result words.
#[unsafe(no_mangle)]
pub extern "C" fn kullneyra_remove(
    offsets: &[u32],
    targets: &[u32],
    numbers: &[u32],
    starts: &[u32],
    new_offsets: &mut [u32],
    new_targets: &mut [u32],
    marks: &mut [u8],
    work: &mut [u32],
) -> u32
    ensures { RemovesIn offsets.now targets.now numbers.now starts.now
        new_offsets.old new_targets.old marks.old work.old
        new_offsets.new new_targets.new marks.new work.new result }
{
    u32::from(refusal::number_of(&remove::remove(
        offsets,
        targets,
        numbers,
        starts,
        new_offsets,
        new_targets,
        marks,
        work,
    )))
}
