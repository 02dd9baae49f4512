// The turns of a worker that looks or claims, and following; and taking a hand-over up.
#![tactic(auto)]

ghost use Rattle.std.specs.Prelude.{◌≡◌, ◌≢◌, List, ℕ, ◌+◌, ◌-◌, ◌<◌, length, get_or};
ghost use Rattle.desk.specs.Limits.{most_workers};
ghost use Rattle.worker.specs.Registers.{Room, block_at, puts_at, step_words};
ghost use Rattle.follow.specs.Claiming.{opened_by, claim_row, claim_tally, Claims, next_word, Advanceable, Advanced, stopped_count, stopped_at, taken_block};
ghost use Rattle.step.specs.Held.{memory};
ghost use Rattle.step.specs.Raising.{Raisable, raised_words};
ghost use Rattle.step.specs.Turned.{Ready, DoesAny};
ghost use Rattle.follow.specs.Following.{IsGiven, IsLooking, IsClaiming, IsFollowing};

use step::{Progress, Step, counts};
use worker::registers;
use worker::registers::Block;

// What opens at a target: a run, from `first` to `end`.
#[derive(Clone, Copy)]
pub struct Opened {
    pub first: u32,
    pub end: u32,
}

// The target is marked already: nothing opens.
const NOTHING: Opened = Opened { first: 0, end: 0 };

// Worker b reads the mark of t again, and marks t if it is still unmarked: a claim that is won. The mark of the owner, which
// stands there afterwards, is told in either case.
fn claim_target(marks: &mut [u8], b: u32, t: u32) -> Result<u8, u8>
    requires { (t < length marks.old) × (b < most_workers) }
    ensures { Claims marks.old b t result marks.new }
{
    let v = t as usize;
    let own = (b + 1) as u8;
    let again = marks[v];
    if again != 0 {
        return Err(again);
    }
    marks[v] = own;
    Ok(own)
}

// What opens at t, by what the claim of it told.
fn opens(offsets: &[u32], t: u32, told: Result<u8, u8>) -> Opened
    requires { t + 1 < length offsets.now }
    ensures { result ≡ opened_by (claim_row told).won offsets.now t }
{
    let v = t as usize;
    match told {
        Ok(_) => Opened {
            first: offsets[v],
            end: offsets[v + 1],
        },
        Err(_) => NOTHING,
    }
}

// Worker b's tally with a claim, which is followed, whether it is won or lost. A branch for each, so
// that a word that does not change is not written.
fn count_claim(tallies: &mut [u64], b: u32, told: Result<u8, u8>)
    requires { Raisable tallies.old b (claim_tally (claim_row told).won) }
    ensures { tallies.new ≡ raised_words tallies.old b (claim_tally (claim_row told).won) }
{
    match told {
        Ok(_) => step::raise(tallies, b, 1, 1, 0, 0),
        Err(_) => step::raise(tallies, b, 1, 0, 1, 0),
    }
}

// The reference at `first` comes up for worker b, with so much of its batch left.
fn come_up(targets: &[u32], regs: &mut [u32], b: u32, batch: u32, first: u32)
    requires { Room regs.old b × (first < length targets.now) }
    ensures { regs.new ≡ puts_at regs.old b (step_words (next_word batch) batch first (get_or targets.now first 0)) }
{
    let status = if batch == 0 {
        registers::POLL
    } else {
        registers::LOOK
    };
    registers::step(regs, b, status, batch, first, targets[first as usize]);
}

// The block of a worker that takes up a hand-over.
fn taken(r: Block, target: u32) -> Block
    ensures { result ≡ taken_block r target }
{
    Block {
        status: registers::POLL,
        cell: 0,
        since: 0,
        batch: 0,
        target,
        ..r
    }
}

// The runs of worker b, with the block r and the stretch s, after the first reference is followed,
// where the run from f to g opens, if it has any. Whether something is left; where not, nothing has
// changed.
fn advance(
    targets: &[u32],
    s: &mut [u32],
    regs: &mut [u32],
    b: u32,
    r: Block,
    f: u32,
    g: u32,
) -> bool
    requires { Advanceable targets.now s.old regs.old b r f g }
    ensures { Advanced targets.now s.old regs.old b r f g s.new regs.new result }
{
    let batch = r.batch - 1;
    let rest = r.first + 1;
    let end = r.end;
    let used = r.used;
    if rest < end {
        if f < g {
            let at = used as usize;
            s[at] = f;
            s[at + 1] = g;
            registers::put(regs, b, registers::USED, used + 2);
            registers::put(regs, b, registers::CARRIED, r.carried + (g - f));
            come_up(targets, regs, b, batch, rest);
            return true;
        }
        come_up(targets, regs, b, batch, rest);
        return true;
    }
    if f < g {
        registers::put(regs, b, registers::CARRIED, r.carried + (g - f));
        registers::put(regs, b, registers::END, g);
        come_up(targets, regs, b, batch, f);
        return true;
    }
    if used < 2 {
        return false;
    }
    let at = used as usize - 2;
    let first = s[at];
    registers::put(regs, b, registers::USED, used - 2);
    registers::put(regs, b, registers::END, s[at + 1]);
    come_up(targets, regs, b, batch, first);
    true
}

// Worker b is left with nothing: it is idle, and an asker in its cell is answered no. How many are.
fn stop(regs: &mut [u32], b: u32, cell: u32) -> u64
    requires { Room regs.old b × (cell ≢ 0 → Room regs.old (cell - 1)) }
    ensures value { result ≡ stopped_count cell }
    ensures regs_after { regs.new ≡ stopped_at regs.old b cell }
{
    registers::put(regs, b, registers::STATUS, registers::IDLE);
    if cell == 0 {
        return 0;
    }
    registers::put(regs, cell - 1, registers::STATUS, registers::DENIED);
    1
}

// The worker, with the block r, follows its first reference, at whose target c opens. Who calls raises
// its tally.
fn follow(
    targets: &[u32],
    work: &mut [u32],
    regs: &mut [u32],
    step: Step,
    r: Block,
    c: Opened,
) -> Progress
    requires r_value { r ≡ block_at regs.old step.entry.worker }
    requires by_index { (marks : List ℕ) × ((marks' : List ℕ) × ((tallies : List ℕ) × ((tallies' : List ℕ)
        × Ready (IsFollowing step.setup targets.now marks' tallies' c step.entry.worker) step.setup
        (memory marks work.old tallies regs.old step.progress)))) }
    ensures { (marks marks' tallies tallies' : List ℕ)
        → DoesAny (IsFollowing step.setup targets.now marks' tallies' c step.entry.worker) step.setup step.entry.worker
        (memory marks work.old tallies regs.old step.progress)
        (memory marks' work.new tallies' regs.new result) }
{
    let b = step.entry.worker as u32;
    let len = step.setup.stretch;
    let from = b as usize * len;
    if advance(
        targets,
        &mut work[from..from + len],
        regs,
        b,
        r,
        c.first,
        c.end,
    ) {
        return counts::followed(step.progress, 0, 0);
    }
    let refused = stop(regs, b, r.cell);
    counts::followed(step.progress, refused, 1)
}

// A look: where the target is marked, the reference is followed; where not, the next turn is a claim.
pub fn look(
    targets: &[u32],
    marks: &[u8],
    work: &mut [u32],
    tallies: &mut [u64],
    regs: &mut [u32],
    step: Step,
) -> Progress
    requires { Ready (IsLooking targets.now step.entry.worker) step.setup
        (memory marks.now work.old tallies.old regs.old step.progress) }
    ensures { DoesAny (IsLooking targets.now step.entry.worker) step.setup step.entry.worker
        (memory marks.now work.old tallies.old regs.old step.progress)
        (memory marks.now work.new tallies.new regs.new result) }
{
    let b = step.entry.worker as u32;
    let r = registers::load(regs, b);
    let t = r.target as usize;
    let seen = marks[t];
    if seen != 0 {
        let q = follow(targets, work, regs, step, r, NOTHING);
        // Behind it, so that what is left of the block is loaded where it is used.
        step::raise(tallies, b, 1, 0, 0, 0);
        return q;
    }
    registers::put(regs, b, registers::STATUS, registers::CLAIM);
    counts::moved(step.progress, 0, 0)
}

// A claim; the reference is followed, whether the claim is won or lost.
pub fn claim(
    offsets: &[u32],
    targets: &[u32],
    marks: &mut [u8],
    work: &mut [u32],
    tallies: &mut [u64],
    regs: &mut [u32],
    step: Step,
) -> Progress
    requires { Ready (IsClaiming offsets.now targets.now step.entry.worker) step.setup
        (memory marks.old work.old tallies.old regs.old step.progress) }
    ensures { DoesAny (IsClaiming offsets.now targets.now step.entry.worker) step.setup step.entry.worker
        (memory marks.old work.old tallies.old regs.old step.progress)
        (memory marks.new work.new tallies.new regs.new result) }
{
    let b = step.entry.worker as u32;
    let first = registers::load(regs, b);
    let target = first.target;
    let told = claim_target(marks, b, target);
    count_claim(tallies, b, told);
    let found = opens(offsets, target, told);
    // Once more, so that the rest of the block is not kept over the writing of the tally.
    let r = registers::load(regs, b);
    follow(targets, work, regs, step, r, found)
}

// An asker takes the hand-over up that it is owed.
pub fn take_up(targets: &[u32], regs: &mut [u32], step: Step) -> Progress
    requires { (marks : List ℕ) × ((work : List ℕ) × ((tallies : List ℕ)
        × Ready (IsGiven targets.now step.entry.worker) step.setup (memory marks work tallies regs.old step.progress))) }
    ensures { (marks work tallies : List ℕ) → DoesAny (IsGiven targets.now step.entry.worker) step.setup step.entry.worker
        (memory marks work tallies regs.old step.progress)
        (memory marks work tallies regs.new result) }
{
    let b = step.entry.worker as u32;
    let r = registers::load(regs, b);
    let first = r.first as usize;
    registers::store(regs, b, taken(r, targets[first]));
    counts::moved(step.progress, 0, 0)
}
