//! The sections whose outage intervals a plan changes.
ghost use Rattle.std.specs.Prelude.{◌≡◌, ◌<◌, IfOk, IfErr, Some, length, map, slice_get};
ghost use Rattle.ob_base.specs.Stop.{out_of_memory};
ghost use Rattle.ob_state.specs.Next.{next};
ghost use Rattle.ob_state.specs.Resolved.{CanTake};
ghost use Rattle.ob_state.specs.States.{AreRunsOf};
ghost use Rattle.ob_book.specs.Forecasts as definition;
ghost use Rattle.ob_book.specs.Intervals.{nodes_then};
ghost use Rattle.ob_book.specs.Plans.{IsPlan};

use crate::intervals::{intervals_after, intervals_before, keeps_intervals};
use crate::plan::Plan;
use ob_base::{Name, Stop};
use ob_json::{SectionChange, same_intervals};
use ob_net::Net;
use ob_state::{Resolved, State};
use ob_sweep::Timeline;
use std::alloc::Global;

/// Returns the sections whose outage intervals a plan changes, with those before and after, by
/// rising number. Fails only if an allocation fails.
pub fn section_changes<T: Timeline>(
    alloc: Global,
    state: &State,
    timeline: &T,
    plan: &Plan<T>,
) -> Result<Vec<SectionChange>, Stop>
    requires runs { AreRunsOf state.now.state (T.content timeline.now) }
    requires plan { IsPlan state.now.state plan.now }
    ensures sections { IfOk result (λ changes. changes.items
        ≡ (definition.forecast state.now.state (next state.now.state plan.now.command)).sections) }
    ensures err { IfErr result (λ stop. stop ≡ out_of_memory) }
{
    let mut changes = Vec::new(alloc);
    for node in 0..nodes_after(state.net(), plan.resolved()) {
        if let Some(change) = section_change(alloc, state, timeline, plan, node)? {
            changes.push(change)?;
        }
    }
    Ok(changes)
}

// A node with its outage intervals before and after; None if they stay.
fn section_change<T: Timeline>(
    alloc: Global,
    state: &State,
    timeline: &T,
    plan: &Plan<T>,
    node: u16,
) -> Result<Option<SectionChange>, Stop>
    requires runs { AreRunsOf state.now.state (T.content timeline.now) }
    requires plan { IsPlan state.now.state plan.now }
    requires node { node < length (next state.now.state plan.now.command).network.nodes }
    ensures change { IfOk result (λ change. change
        ≡ definition.section_change state.now.state (next state.now.state plan.now.command) node) }
    ensures err { IfErr result (λ stop. stop ≡ out_of_memory) }
{
    if keeps_intervals(state, plan, node) {
        return Ok(None);
    }
    let before = intervals_before(alloc, state, timeline, node)?;
    let after = intervals_after(alloc, state, timeline, plan, node)?;
    if same_intervals(&before, &after) {
        return Ok(None);
    }
    let section = name_after(state, plan.resolved(), node);
    Ok(Some(SectionChange::new(section, before, after)))
}

// The number of nodes after a command.
#[tactic(auto, using(crate::proofs::Forecasting::none_added))]
fn nodes_after(net: &Net, resolved: &Resolved) -> u16
    ensures { result ≡ length (nodes_then net.now.network resolved.now) }
{
    let nodes = net.nodes();
    match *resolved {
        Resolved::Node { .. } => nodes + 1,
        _ => nodes,
    }
}

// The name of a node after a command.
fn name_after(state: &State, resolved: &Resolved, node: u16) -> Name
    requires takes { CanTake state.now.state resolved.now }
    requires node { node < length (nodes_then state.now.state.network resolved.now) }
    ensures { Some result
        ≡ slice_get (map (λ n. n.name) (nodes_then state.now.state.network resolved.now)) node }
{
    match *resolved {
        Resolved::Node {
            number,
            node: added,
        } => {
            if number == node {
                added.name
            } else {
                state.net().node_name(node)
            }
        }
        _ => state.net().node_name(node),
    }
}
