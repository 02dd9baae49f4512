// The settings at the front of `order.run`.
ghost use Rattle.std.specs.Prelude.{◌≡◌, ◌≤◌, length};
ghost use Rattle.refusal.specs.Number.{number_of};
ghost use Rattle.program.specs.Limits.{order_length};
ghost use Rattle.program.specs.Program.{order_of, order_fault};

use desk::Settings;
use program::limits::MOST_WORKERS;
use refusal::{Checked, Refusal};

// One byte, then two words of two bytes.
pub fn order_of(order: &[u8]) -> Settings
    requires { order_length ≤ length order.now }
    ensures { result ≡ order_of order.now }
{
    Settings {
        workers: u32::from(order[0]),
        batch: u32::from(slices::word2(order, 1)),
        cutoff: u32::from(slices::word2(order, 3)),
    }
}

// Whether the settings are in their ranges, and W is one that the program takes.
pub fn check(settings: Settings) -> Checked
    ensures { number_of result ≡ order_fault settings }
{
    if checks::settings_outside(settings) {
        return Err(Refusal::Setting);
    }
    if MOST_WORKERS < settings.workers {
        return Err(Refusal::Large);
    }
    Ok(())
}
