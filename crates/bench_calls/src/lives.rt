//! The outage intervals of a year, updated in windows while devices get other in-service intervals
//! (lives). The window of a change is the seconds in which the change can alter the supply.
ghost use Rattle.std.specs.Prelude.{◌≡◌, ◌⊎◌, IfSome, length};
ghost use Rattle.bench_calls.specs.Builds.{case_of};
ghost use Rattle.bench_calls.specs.Lives.{AddsUpLives, HasRuns, life_from, with_lives, with_one_life};

use crate::build::seconds_of_sections;
use crate::made::{Made, make};
use ob_net::Life;
use ob_sweep::{Change, Timeline, Windowed};
use std::alloc::Global;

/// Makes a network, a switching log and the year by `make`, and their outage intervals by
/// `Windowed::build`. Then, for each place of `lived`, it gives that device the life that begins
/// and ends a number of seconds after the year's first one, without end if `until` is `u32::MAX`:
/// the change is planned in its window, and adopted. It answers the seconds in the outage intervals
/// of all sections after that, and writes into `searches`, at the place of each life, how often the
/// network was searched for it.
///
/// It answers 0 if memory is refused, if lists of one kind differ in length, if they make no
/// network, no switching log over these days or no life of a device, or if the sum doesn't fit.
#[unsafe(no_mangle)]
pub extern "C" fn bench_lives(
    alloc: Global,
    nodes: u16,
    from: &[u16],
    to: &[u16],
    closed: &[u8],
    devices: &[u16],
    closes: &[u8],
    seconds: &[u32],
    lived: &[u16],
    since: &[u32],
    until: &[u32],
    searches: &mut [u64],
) -> u64
    ensures { (result ≡ 0) ⊎ AddsUpLives nodes from.now to.now closed.now devices.now closes.now
        seconds.now lived.now since.now until.now result }
{
    if lived.len() != since.len() || lived.len() != until.len() || lived.len() != searches.len() {
        return 0;
    }
    let Some(mut made) = make(alloc, nodes, from, to, closed, devices, closes, seconds) else {
        return 0;
    };
    let Ok(mut timeline) = Windowed::build(alloc, &mut made.net, &made.sheet, &made.year) else {
        return 0;
    };
    let Some(()) = live(&mut made, &mut timeline, lived, since, until, searches) else {
        return 0;
    };
    match seconds_of_sections(&timeline, made.net.nodes()) {
        Some(sum) => sum,
        None => 0,
    }
}

/// Gives one device after the other its life, in the network and in its outage intervals, and
/// writes how often the network was searched for each.
fn live(
    made: &mut Made,
    timeline: &mut Windowed,
    lived: &[u16],
    since: &[u32],
    until: &[u32],
    searches: &mut [u64],
) -> Option<()>
    requires sinces { length lived.now ≡ length since.now }
    requires untils { length lived.now ≡ length until.now }
    requires places { length lived.now ≡ length searches.old }
    requires runs { HasRuns (case_of made.old.net.network made.old.sheet.entries made.old.year)
        timeline.old }
    ensures case { IfSome result (λ _. case_of made.new.net.network made.new.sheet.entries
        made.new.year ≡ with_lives (case_of made.old.net.network made.old.sheet.entries
        made.old.year) lived.now since.now until.now) }
    ensures runs { IfSome result (λ _. HasRuns (case_of made.new.net.network made.new.sheet.entries
        made.new.year) timeline.new) }
{
    let first = made.year.first_second();
    for place in 0..lived.len() {
        let life = life_from(first, since[place], until[place])?;
        let before = made.net.searches();
        live_one(made, timeline, lived[place], life)?;
        let more = made.net.searches().saturating_sub(before);
        searches[place] = u64::try_from(more).unwrap_or(u64::MAX);
    }
    Some(())
}

/// Gives a device another life, in the network and in its outage intervals.
fn live_one(made: &mut Made, timeline: &mut Windowed, device: u16, life: Life) -> Option<()>
    requires runs { HasRuns (case_of made.old.net.network made.old.sheet.entries made.old.year)
        timeline.old }
    ensures case { IfSome result (λ _. case_of made.new.net.network made.new.sheet.entries
        made.new.year ≡ with_one_life (case_of made.old.net.network made.old.sheet.entries
        made.old.year) device life) }
    ensures runs { IfSome result (λ _. HasRuns (case_of made.new.net.network made.new.sheet.entries
        made.new.year) timeline.new) }
{
    if device >= made.net.devices() {
        return None;
    }
    let old = made.net.life_of(device);
    made.net.set_life(device, life).ok()?;
    let change = Change::Lived {
        device,
        old,
        new: life,
    };
    let Ok(delta) = timeline.plan(&mut made.net, &made.sheet, &made.year, &change) else {
        return None;
    };
    timeline.adopt(delta);
    Some(())
}

/// The life that begins and ends a number of seconds after a first one, without end if `until` is
/// `u32::MAX`.
fn life_from(first: u64, since: u32, until: u32) -> Option<Life>
    ensures { IfSome result (λ life. life ≡ life_from first since until) }
{
    let end = if until == u32::MAX {
        None
    } else {
        Some(first.checked_add(u64::from(until))?)
    };
    Some(Life {
        since: first.checked_add(u64::from(since))?,
        until: end,
    })
}
