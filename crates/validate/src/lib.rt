// Whether saved words hold a sound run (SPECIFICATION 8.2).
#![tactic(auto)]

ghost use Rattle.laws.specs.Decides.{Decides};
ghost use Rattle.graph.specs.Graph.{graph};
ghost use Rattle.validate.specs.Checked.{Checked, Saves, setting_of};

use desk::{Settings, places};
use protocol::{heads, ring};
use tallies::Sums;

// Whether they do, of a call that is accepted so far.
pub fn is_sound(
    offsets: &[u32],
    targets: &[u32],
    starts: &[u32],
    settings: Settings,
    saved: &[u32],
) -> bool
    requires { Checked (graph offsets.now targets.now) starts.now settings.workers (setting_of settings) saved.now }
    ensures { Decides result (Saves (graph offsets.now targets.now) starts.now settings.workers (setting_of settings) saved.now) }
{
    let workers = settings.workers;
    if saved[0] != places::FORM {
        return false;
    }
    let Some(heads) = heads::check_heads(saved, workers, settings.batch) else {
        return false;
    };
    if !ring::links_sound(saved, workers, heads.ended) {
        return false;
    }
    let from = places::marks(workers);
    let marks = &saved[from..from + (offsets.len() - 1)];
    let Some(marked) = marks::check_marks(offsets, marks, workers) else {
        return false;
    };
    let Some(distinct) = marks::check_starts(starts, marks) else {
        return false;
    };
    let Some(loads) = frontier::check_loads(offsets, targets, marks, saved, workers) else {
        return false;
    };
    let sums = Sums {
        live: marked.live,
        leaving: marked.leaving,
        distinct,
        ended: heads.ended,
        since: heads.since,
        carrying: loads.carrying,
        carried: loads.carried,
    };
    tallies::agree(saved, targets.len() as u64, settings, sums)
}
