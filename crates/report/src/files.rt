// The checks of the two files, and of the numbers of objects and references.
ghost use Rattle.std.specs.Prelude.{◌≡◌};
ghost use Rattle.refusal.specs.Number.{number_of};
ghost use Rattle.program.specs.Program.{unreadable, larger, files, files_fault, counts_fault};

use program::{Loaded, limits};
use refusal::{Checked, Refusal};

fn is_unreadable(file: Loaded) -> bool
    ensures { result ≡ unreadable file }
{
    matches!(file, Loaded::Unreadable)
}

// Whether a file has more bytes than the program takes.
fn is_larger(file: Loaded, len: usize, most: usize) -> bool
    ensures { result ≡ larger file len most }
{
    matches!(file, Loaded::TooLong) || most < len
}

// The first fault of the files.
pub fn check(storefile: Loaded, store: &[u8], orderfile: Loaded, order: &[u8]) -> Checked
    ensures { number_of result ≡ files_fault (files storefile store.now orderfile order.now) }
{
    if is_unreadable(storefile) || is_unreadable(orderfile) || order.len() < limits::ORDER_LENGTH {
        return Err(Refusal::File);
    }
    if is_larger(storefile, store.len(), limits::MOST_STORE_BYTES)
        || is_larger(orderfile, order.len(), limits::MOST_ORDER_BYTES)
    {
        return Err(Refusal::Large);
    }
    Ok(())
}

// Whether the program takes so many objects and references.
pub fn check_counts(n: u32, m: u32) -> Checked
    ensures { number_of result ≡ counts_fault n m }
{
    if limits::MOST_OBJECTS < n as usize || limits::MOST_REFERENCES < m as usize {
        return Err(Refusal::Large);
    }
    Ok(())
}
