//! The effect of a change of the network: a new bus, section or device, or another in-service
//! interval of a device.
ghost use Rattle.std.specs.Prelude.{◌≡◌, ◌+◌, ◌≤◌, ◌<◌, ℕ, None, IfOk, IfErr, IsSome, OnOk, length};
ghost use Rattle.ob_base.specs.Stop.{out_of_memory};
ghost use Rattle.ob_net.specs.Network.{node_refusal, HasFeederOrNone};
ghost use Rattle.ob_sweep.specs.Changed.{changed, net_before, Applies, IsAfter};
ghost use Rattle.ob_sweep.specs.Deltas.{new_runs, Fits, IsDelta};
ghost use Rattle.ob_time.specs.Calendar.{day_count};
ghost use Rattle.ob_post.specs.declared.Dim.{Dim as Dimension};
ghost use Rattle.ob_state.specs.Amounts.{amount};
ghost use Rattle.ob_state.specs.States.{AreRunsOf, IsSoundState};
ghost use Rattle.ob_state.specs.Retimings.{runs_in};
ghost use Rattle.ob_post.specs.Balances.{Balances, together};
ghost use Rattle.ob_state.specs.Effects.{IsEffect, amount_of_node, before_change};
ghost use Rattle.ob_state.specs.Resolved.{next_by, node_change, searches_by, IsDeviceToJoin, IsOtherLife};

use crate::effect::Effect;
use crate::resolved::Resolved;
use crate::retiming::Retiming;
use crate::state::State;
use ob_base::{Life, Stop};
use ob_net::{Device, Node};
use ob_post::laws::{section_laws, total_laws};
use ob_post::{Basis, Posting};
use ob_sweep::{Change, Delta, Timeline};
use std::alloc::Global;

/// Computes the effect of a new bus or section. It has no customers yet, but a section has outage
/// intervals. Fails only if an allocation fails.
pub fn with_node<T: Timeline>(
    alloc: Global,
    state: &mut State,
    timeline: &T,
    node: Node,
) -> Result<Effect, Stop>
    requires free { node_refusal state.old.state.network node.name ≡ None }
    requires feeder { HasFeederOrNone node }
    requires runs { AreRunsOf state.old.state (T.content timeline.now) }
    ensures effect { IfOk result (IsEffect state.old.state (next_by state.old.state
        (Resolved.Node (length state.old.state.network.nodes) node))) }
    ensures err { IfErr result (λ stop. stop ≡ out_of_memory) }
    ensures state { state.new.state ≡ state.old.state }
    ensures searches { state.new.searches ≤ state.old.searches + searches_by T.bound
        state.old.state (Resolved.Node (length state.old.state.network.nodes) node) }
{
    state.reserve_one()?;
    let _ = state.accepted();
    let change = change_of_node(node.feeder);
    state.add_node(node);
    let delta = plan_change(state, timeline, &change);
    state.take_back_node();
    Ok(Effect {
        moves: Vec::new(alloc),
        retiming: Retiming::By(delta?),
    })
}

/// Computes the effect of a new device. Fails only if an allocation fails.
pub fn with_device<T: Timeline>(
    alloc: Global,
    state: &mut State,
    timeline: &T,
    number: u16,
    device: Device,
) -> Result<Effect, Stop>
    requires takes { IsDeviceToJoin state.old.state number device }
    requires runs { AreRunsOf state.old.state (T.content timeline.now) }
    ensures effect { IfOk result (IsEffect state.old.state (next_by state.old.state
        (Resolved.Device number device))) }
    ensures err { IfErr result (λ stop. stop ≡ out_of_memory) }
    ensures state { state.new.state ≡ state.old.state }
    ensures searches { state.new.searches ≤ state.old.searches + searches_by T.bound
        state.old.state (Resolved.Device number device) }
{
    state.reserve_one()?;
    let _ = state.accepted();
    let change = Change::Joined {
        device: number,
        life: device.life,
    };
    state.join(device);
    let effect = effect_on_network(alloc, state, timeline, &change);
    state.take_back_device();
    effect
}

/// Computes the effect of another in-service interval of a device. Fails only if an allocation
/// fails.
pub fn with_life<T: Timeline>(
    alloc: Global,
    state: &mut State,
    timeline: &T,
    device: u16,
    old: Life,
    new: Life,
) -> Result<Effect, Stop>
    requires takes { IsOtherLife state.old.state device old new }
    requires runs { AreRunsOf state.old.state (T.content timeline.now) }
    ensures effect { IfOk result (IsEffect state.old.state (next_by state.old.state
        (Resolved.Life device old new))) }
    ensures err { IfErr result (λ stop. stop ≡ out_of_memory) }
    ensures state { state.new.state ≡ state.old.state }
    ensures searches { state.new.searches ≤ state.old.searches + searches_by T.bound
        state.old.state (Resolved.Life device old new) }
{
    let _ = state.accepted();
    state.set_life(device, new);
    let change = Change::Lived { device, old, new };
    let effect = effect_on_network(alloc, state, timeline, &change);
    state.set_life(device, old);
    effect
}

// The change of the network that adds a node with this home feeder, or with none.
fn change_of_node(feeder: Option<u8>) -> Change
    ensures { result ≡ node_change feeder }
{
    match feeder {
        Some(feeder) => Change::Section { feeder },
        None => Change::Bus,
    }
}

// The effect of a change of the devices that the state already has. `timeline` holds the outage
// intervals before it.
fn effect_on_network<T: Timeline>(
    alloc: Global,
    state: &mut State,
    timeline: &T,
    change: &Change,
) -> Result<Effect, Stop>
    requires part { changed change.now state.old.state.entries ≡ state.old.state.entries }
    requires applies { Applies change.now state.old.state.entries }
    requires after { IsAfter change.now state.old.state.network }
    requires nodes { (net_before change.now state.old.state.network).nodes
        ≡ state.old.state.network.nodes }
    requires runs { AreRunsOf (before_change change.now state.old.state) (T.content timeline.now) }
    ensures effect { IfOk result (IsEffect (before_change change.now state.old.state)
        state.old.state) }
    ensures err { IfErr result (λ stop. stop ≡ out_of_memory) }
    ensures state { state.new.state ≡ state.old.state }
    ensures searches { state.new.searches ≤ state.old.searches + T.bound state.old.state.network
        state.old.state.entries state.old.state.period change.now }
{
    total_laws();
    let _ = state.accepted();
    let delta = plan_change(state, timeline, change)?;
    let posting = post_sections(alloc, state, timeline, change, &delta)?;
    Ok(Effect {
        moves: posting.moves(&state.period)?,
        retiming: Retiming::By(delta),
    })
}

// The changes of the outage intervals under a change of the network that the state already has.
// `timeline` holds the intervals before it.
fn plan_change<T: Timeline>(state: &mut State, timeline: &T, change: &Change) -> Result<Delta, Stop>
    requires part { changed change.now state.old.state.entries ≡ state.old.state.entries }
    requires applies { Applies change.now state.old.state.entries }
    requires after { IsAfter change.now state.old.state.network }
    requires runs { AreRunsOf (before_change change.now state.old.state) (T.content timeline.now) }
    ensures delta { IfOk result (λ delta. IsDelta state.old.state.network delta
        (T.content timeline.now) (runs_in state.old.state)) }
    ensures fits { IfOk result (λ delta. Fits (T.content timeline.now) delta) }
    ensures err { IfErr result (λ stop. stop ≡ out_of_memory) }
    ensures state { state.new.state ≡ state.old.state }
    ensures searches { state.new.searches ≤ state.old.searches + T.bound state.old.state.network
        state.old.state.entries state.old.state.period change.now }
{
    timeline.plan(&mut state.net, &state.sheet, &state.period, change)
}

// The changes of amounts under a change of the devices that the state already has: those of the
// sections that it touches.
fn post_sections<T: Timeline>(
    alloc: Global,
    state: &State,
    timeline: &T,
    change: &Change,
    delta: &Delta,
) -> Result<Posting, Stop>
    requires nodes { (net_before change.now state.now.state.network).nodes
        ≡ state.now.state.network.nodes }
    requires runs { AreRunsOf (before_change change.now state.now.state) (T.content timeline.now) }
    requires delta { IsDelta state.now.state.network delta.now (T.content timeline.now)
        (runs_in state.now.state) }
    ensures posted { IfOk result (λ posting. Balances (day_count state.now.state.period) posting
        (amount (before_change change.now state.now.state)) (amount state.now.state)) }
    ensures err { IfErr result (λ stop. stop ≡ out_of_memory) }
{
    section_laws();
    let _ = state.accepted();
    let mut posting = Posting::new(alloc);
    let touched = delta.touched();
    for node in touched {
        repost(&mut posting, state, timeline, change, delta, *node)?;
    }
    Ok(posting)
}

// Replaces the amounts of a touched section by those of its new outage intervals.
fn repost<T: Timeline>(
    posting: &mut Posting,
    state: &State,
    timeline: &T,
    change: &Change,
    delta: &Delta,
    node: u16,
) -> Result<(), Stop>
    requires sound { IsSoundState state.now.state }
    requires nodes { (net_before change.now state.now.state.network).nodes
        ≡ state.now.state.network.nodes }
    requires runs { AreRunsOf (before_change change.now state.now.state) (T.content timeline.now) }
    requires delta { IsDelta state.now.state.network delta.now (T.content timeline.now)
        (runs_in state.now.state) }
    requires node { node < length state.now.state.network.nodes }
    requires touched { IsSome (new_runs delta.now node) }
    ensures posted { (old new : Dimension → ℕ → ℕ)
        → Balances (day_count state.now.state.period) posting.old old new
        → OnOk result (Balances (day_count state.now.state.period) posting.new
        (together old (amount_of_node (before_change change.now state.now.state) node))
        (together new (amount_of_node state.now.state node))) }
    ensures err { IfErr result (λ stop. stop ≡ out_of_memory) }
{
    section_laws();
    // A bus, not a section: it has no customers, so no amount changes.
    let Some(feeder) = state.net.feeder_of(node) else {
        return Ok(());
    };
    let basis = Basis {
        sheet: &state.sheet,
        feeder,
        roll: &state.roll,
        period: &state.period,
    };
    posting.take(timeline.runs_of(node), &basis)?;
    posting.give(delta.runs(node), &basis)
}
