//! Parts of outage intervals, from one second up to another.
ghost use Rattle.std.specs.Prelude.{◌≡◌, ◌≤◌, Some, drop, length};
ghost use Rattle.ob_sweep.specs.declared.Run.{Run as ARun};
ghost use Rattle.ob_post.specs.Parts.{bound_behind, left_from, part_from, rise_from};

use ob_base::Second;
use ob_sweep::Run;

/// Whether outage intervals come one behind another.
pub fn rise(runs: &[Run]) -> bool
    ensures { result ≡ rise_from 0 runs.now }
{
    let mut end = 0;
    for run in runs {
        if run.since < end {
            return false;
        }
        end = run.until;
    }
    true
}

/// The first second after `at` at which the outage interval at a place begins or ends; `end` if
/// there is none.
pub fn bound_behind(runs: &[Run], place: usize, at: Second, end: Second) -> Second
    ensures { result ≡ bound_behind at end (drop place runs.now) }
{
    match runs.get(place) {
        Some(run) => { if at < run.since { run.since } else { run.until } }
        None => end,
    }
}

/// The part from `at` up to `until` of the outage interval at a place; `None` if it begins later or
/// there is none.
pub fn part_from(runs: &[Run], place: usize, at: Second, until: Second) -> Option<Run>
    ensures { result ≡ part_from at until (drop place runs.now) }
{
    let run = runs.get(place)?;
    if at < run.since {
        return None;
    }
    Some(Run {
        since: at,
        until,
        ..*run
    })
}

/// The place behind the outage interval at a place if it ends at `until`; else the same place.
pub fn place_from(runs: &[Run], place: usize, until: Second) -> usize
    requires { place ≤ length runs.now }
    ensures within { result ≤ length runs.now }
    ensures left { drop result runs.now ≡ left_from until (drop place runs.now) }
{
    match runs.get(place) {
        Some(run) => { if run.until == until { place + 1 } else { place } }
        None => place,
    }
}

/// A part of an outage interval if it is of a section; else `None`.
pub fn of_section(part: Option<Run>, section: u16) -> Option<Run>
    ensures { (run : ARun) → result ≡ Some run → (part ≡ Some run) × (run.section ≡ section) }
{
    match part {
        Some(run) => { if run.section == section { part } else { None } }
        None => None,
    }
}
