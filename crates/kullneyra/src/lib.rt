// What users link, said of numbers and slices in specs/. The code is what the exported functions share: how an
// answer is given as a number and result words. The functions stand in the crates ffi_*.
#![tactic(auto)]

ghost use Rattle.std.specs.Prelude.{◌≡◌, length};
ghost use Rattle.refusal.specs.Number.{number as number_for};
ghost use Rattle.desk.specs.Length.{length_row};
ghost use Rattle.desk.specs.Kept.{unless_refused};
ghost use Rattle.catalogue.specs.Answer.{row, found_row};
ghost use Rattle.marker.specs.Answer.{row as mark_row};
ghost use Rattle.kullneyra.specs.Calls.{header_words, read_words};
ghost use Rattle.kullneyra.specs.Calls.{LengthIn, mark_word_count, result_words, mark_words, stop_word_count, stop_words, seed_words};

use catalogue::{Found, Header};
use desk::places::COUNTS;
use machine::Counts;
use marker::Marked;
use refusal::Refusal;
use seed::Seed;

// The number of a buffer that is not as long as it must be.
pub const BUFFER: u32 = 7;

// Result words of the marker: finished, and the counts.
pub const MARK_WORDS: usize = 1 + COUNTS;

// Those of a call that saves: one more, whether what is saved is sound.
pub const STOP_WORDS: usize = MARK_WORDS + 1;

// The number of a refusal as it is answered.
pub fn number(refusal: Refusal) -> u32
    ensures { result ≡ number_for refusal }
{
    u32::from(u8::from(refusal))
}

// An answer of `header`: its number, and n, m and the index in the result words.
pub fn give(answer: Result<Header, Refusal>, res: &mut [u32]) -> u32
    requires { length res.old ≡ 3 }
    ensures value { result ≡ (row answer).refusal }
    ensures res_after { res.new ≡ unless_refused (row answer).refusal (header_words (row answer)) res.old }
{
    match answer {
        Ok(Header { n, m, index }) => {
            res.copy_from_slice(&[n, m, index]);
            0
        }
        Err(refusal) => number(refusal),
    }
}

// An answer of `read`: the same, and how many starts there are.
pub fn give_found(answer: Result<Found, Refusal>, res: &mut [u32]) -> u32
    requires { length res.old ≡ 4 }
    ensures value { result ≡ (found_row answer).refusal }
    ensures res_after { res.new ≡ unless_refused (found_row answer).refusal (read_words (found_row answer)) res.old }
{
    match answer {
        Ok(
            Found {
                n,
                m,
                index,
                starts,
            },
        ) => {
            res.copy_from_slice(&[n, m, index, starts]);
            0
        }
        Err(refusal) => number(refusal),
    }
}

// The result words of a marker's answer without a refusal.
fn give_counts(finished: u64, counts: Counts, res: &mut [u64])
    requires { length res.old ≡ mark_word_count }
    ensures { res.new ≡ result_words finished counts }
{
    res[0] = finished;
    step::counts::put_counts(counts, &mut res[1..]);
}

// An answer of the marker: its number, and its values in the result words.
pub fn give_marked(answer: Result<Marked, Refusal>, res: &mut [u64]) -> u32
    requires { length res.old ≡ mark_word_count }
    ensures value { result ≡ (mark_row answer).number }
    ensures res_after { res.new ≡ unless_refused (mark_row answer).number (mark_words (mark_row answer)) res.old }
{
    match answer {
        Ok(Marked::Finished(counts)) => {
            give_counts(1, counts, res);
            0
        }
        Ok(Marked::Unfinished(counts)) => {
            give_counts(0, counts, res);
            0
        }
        Err(refusal) => number(refusal),
    }
}

// An answer of a call that saves, and whether what it saved is sound.
pub fn give_stopped(answer: Result<Marked, Refusal>, sound: bool, res: &mut [u64]) -> u32
    requires { length res.old ≡ stop_word_count }
    ensures value { result ≡ (mark_row answer).number }
    ensures res_after { res.new ≡ unless_refused (mark_row answer).number (stop_words (mark_row answer) sound) res.old }
{
    let number = give_marked(answer, &mut res[..MARK_WORDS]);
    if number == 0 {
        res[MARK_WORDS] = u64::from(sound);
    }
    number
}

// The answer of a call for a length: its number, and the length in the result word.
pub fn give_length(answer: Result<u64, Refusal>, res: &mut [u64]) -> u32
    ensures { LengthIn (length_row answer) res.old res.new result }
{
    if res.len() != 1 {
        return BUFFER;
    }
    match answer {
        Ok(long) => {
            res[0] = long;
            0
        }
        Err(refusal) => number(refusal),
    }
}

// The two words of a seed.
pub fn put_seed(seed: Seed, words: &mut [u32])
    requires { length words.old ≡ 2 }
    ensures { words.new ≡ seed_words seed }
{
    words.copy_from_slice(&[seed.first, seed.second]);
}
