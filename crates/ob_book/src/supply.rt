//! The supply at a second: the sections without it, and how the devices stand.
ghost use Rattle.std.specs.Prelude.{◌≡◌, ◌&&◌, ◌<◌, IfOk, IfErr, Some, length, map, nat_le, nat_lt, option_map, slice_get};
ghost use Rattle.std.specs.List.{enumerate_from, filter_map, find, range_with_len};
ghost use Rattle.ob_base.specs.Stop.{out_of_memory};
ghost use Rattle.ob_sheet.specs.Order.{upto};
ghost use Rattle.ob_sheet.specs.Positions.{entered};
ghost use Rattle.ob_time.specs.Calendar.{end_second_of};
ghost use Rattle.ob_state.specs.States.{AreRunsOf};
ghost use Rattle.ob_book.specs.Supplies.{device_state, supply_text_of, unsupplied};

use crate::intervals::cause_before;
use ob_base::{Pos, Second, Stop};
use ob_json::{DeviceState, UnsuppliedSection, supply_text};
use ob_state::State;
use ob_sweep::{Run, Timeline};
use std::alloc::Global;

/// Returns the supply at a second as JSON; `None` if the second isn't in the period. Fails only if
/// an allocation fails.
pub fn supply_at<T: Timeline>(
    alloc: Global,
    state: &State,
    timeline: &T,
    second: Second,
) -> Result<Option<Vec<u8>>, Stop>
    requires runs { AreRunsOf state.now.state (T.content timeline.now) }
    ensures text { IfOk result (λ text. option_map (λ t. t.items) text
        ≡ supply_text_of state.now.state second) }
    ensures err { IfErr result (λ stop. stop ≡ out_of_memory) }
{
    let period = state.period();
    if second < period.first_second() || period.end_second() <= second {
        return Ok(None);
    }
    let sections = unsupplied_sections(alloc, state, timeline, second)?;
    let devices = device_states(alloc, state, second)?;
    Ok(Some(supply_text(alloc, second, &sections, &devices)?))
}

// The sections without supply at a second of the period, by rising number.
fn unsupplied_sections<T: Timeline>(
    alloc: Global,
    state: &State,
    timeline: &T,
    second: Second,
) -> Result<Vec<UnsuppliedSection>, Stop>
    requires runs { AreRunsOf state.now.state (T.content timeline.now) }
    requires second { second < end_second_of state.now.state.period }
    ensures sections { IfOk result (λ list. list.items
        ≡ filter_map (unsupplied state.now.state second)
        (range_with_len 0 (length state.now.state.network.nodes))) }
    ensures err { IfErr result (λ stop. stop ≡ out_of_memory) }
{
    let mut sections = Vec::new(alloc);
    for node in 0..state.net().nodes() {
        if let Some(section) = unsupplied_section(state, timeline, second, node) {
            sections.push(section)?;
        }
    }
    Ok(sections)
}

// A node with its outage interval of a second; `None` if it is no section or has supply then.
fn unsupplied_section<T: Timeline>(
    state: &State,
    timeline: &T,
    second: Second,
    node: u16,
) -> Option<UnsuppliedSection>
    requires runs { AreRunsOf state.now.state (T.content timeline.now) }
    requires second { second < end_second_of state.now.state.period }
    requires node { node < length state.now.state.network.nodes }
    ensures { result ≡ unsupplied state.now.state second node }
{
    // This call's contract states how late the period may end.
    let _ = state.accepted();
    state.net().feeder_of(node)?;
    let run = run_at(timeline.runs_of(node), second)?;
    Some(UnsuppliedSection {
        section: state.net().node_name(node),
        since: run.since,
        until: run.until,
        entry: run.cutter,
        cause: cause_before(state.sheet(), &run),
        customers: state.roll().served_seconds(node, second, second + 1),
    })
}

// The first outage interval that holds a second.
fn run_at(runs: &[Run], second: Second) -> Option<Run>
    ensures { result ≡ find (λ r. nat_le r.since second && nat_lt second r.until) runs.now }
{
    runs.iter()
        .find(|run| run.since <= second && second < run.until)
        .copied()
}

// Each device at a second, by number.
fn device_states(alloc: Global, state: &State, second: Second) -> Result<Vec<DeviceState>, Stop>
    ensures devices { IfOk result (λ list. list.items ≡ map (device_state state.now.state second)
        (enumerate_from 0 state.now.state.network.devices)) }
    ensures err { IfErr result (λ stop. stop ≡ out_of_memory) }
{
    let positions = positions_at(state, second)?;
    let mut devices = Vec::with_capacity(alloc, positions.len())?;
    for device in 0..state.net().devices() {
        devices.push(device_at(state, &positions, second, device))?;
    }
    Ok(devices)
}

// A device at a second, at which these are the positions by number.
fn device_at(state: &State, positions: &[Pos], second: Second, device: u16) -> DeviceState
    requires positions { positions.now
        ≡ entered state.now.state.network (upto state.now.state.entries second) }
    requires device { device < length state.now.state.network.devices }
    ensures { slice_get (map (device_state state.now.state second)
        (enumerate_from 0 state.now.state.network.devices)) device ≡ Some result }
{
    let net = state.net();
    DeviceState {
        device: net.device_name(device),
        position: positions[usize::from(device)],
        alive: net.life_of(device).holds(second),
    }
}

// The positions that the entries up to and at a second give the devices, in service or not.
fn positions_at(state: &State, second: Second) -> Result<Vec<Pos>, Stop>
    ensures positions { IfOk result (λ p. p.items
        ≡ entered state.now.state.network (upto state.now.state.entries second)) }
    ensures err { IfErr result (λ stop. stop ≡ out_of_memory) }
{
    // This call's contract states that each entry is of a device of the network.
    let _ = state.accepted();
    let sheet = state.sheet();
    let place = sheet.places_before(second);
    let mut positions = sheet.entered_before(place, state.net())?;
    // Now the entries of the second itself.
    let _ = sheet.advance(place, second, &mut positions);
    Ok(positions)
}
