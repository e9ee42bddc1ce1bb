//! The effect of a change of the switching log.
ghost use Rattle.std.specs.Prelude.{◌≡◌, ◌+◌, ◌<◌, ◌≤◌, IfOk, IfErr, IsSome, IsTrue, OnOk, length};
ghost use Rattle.ob_base.specs.Stop.{out_of_memory};
ghost use Rattle.ob_sweep.specs.Changed.{changed, of_sheet, Applies};
ghost use Rattle.ob_sweep.specs.Deltas.{new_runs, IsDelta};
ghost use Rattle.ob_time.specs.Calendar.{day_count};
ghost use Rattle.ob_state.specs.Amounts.{amount, moves};
ghost use Rattle.ob_state.specs.Retimings.{runs_in};
ghost use Rattle.ob_state.specs.States.{AreRunsOf, IsBookState, IsSoundState};
ghost use Rattle.ob_state.specs.Effects.{amount_of_node, with_entries, BalancesFirst, IsEffect};
ghost use Rattle.ob_post.specs.Balances.{Balances, Posts};
ghost use Rattle.ob_post.specs.Causes.{KeepsCause};

use crate::effect::Effect;
use crate::retiming::Retiming;
use crate::state::State;
use ob_base::Stop;
use ob_post::laws::{cause_laws, section_laws, total_laws};
use ob_post::{Basis, Moved, Posting};
use ob_sweep::{Change, Delta, Timeline};
use std::alloc::Global;

/// Computes the effect of a change of the switching log. Fails only if an allocation fails.
pub fn effect_on_sheet<T: Timeline>(
    alloc: Global,
    state: &mut State,
    timeline: &T,
    change: &Change,
) -> Result<Effect, Stop>
    requires runs { AreRunsOf state.old.state (T.content timeline.now) }
    requires of_sheet { IsSome (of_sheet change.now) }
    requires applies { Applies change.now state.old.state.entries }
    requires changed { IsBookState (with_entries state.old.state
        (changed change.now state.old.state.entries)) }
    ensures effect { IfOk result (IsEffect state.old.state (with_entries state.old.state
        (changed change.now state.old.state.entries))) }
    ensures err { IfErr result (λ stop. stop ≡ out_of_memory) }
    ensures state { state.new.state ≡ state.old.state }
    ensures searches { state.new.searches ≤ state.old.searches + T.bound state.old.state.network
        state.old.state.entries state.old.state.period change.now }
{
    let delta = timeline.plan(&mut state.net, &state.sheet, &state.period, change)?;
    let moves = moves_by_change(alloc, state, timeline, &delta, change)?;
    Ok(Effect {
        moves,
        retiming: Retiming::By(delta),
    })
}

// The changes of amounts under a change of the switching log that changes the outage intervals by
// `delta`.
fn moves_by_change<T: Timeline>(
    alloc: Global,
    state: &State,
    timeline: &T,
    delta: &Delta,
    change: &Change,
) -> Result<Vec<Moved>, Stop>
    requires runs { AreRunsOf state.now.state (T.content timeline.now) }
    requires applies { Applies change.now state.now.state.entries }
    requires changed { IsBookState (with_entries state.now.state
        (changed change.now state.now.state.entries)) }
    requires delta { IsDelta state.now.state.network delta.now (T.content timeline.now)
        (runs_in (with_entries state.now.state (changed change.now state.now.state.entries))) }
    ensures moves { IfOk result (λ moved. moved.items
        ≡ moves state.now.state (with_entries state.now.state
        (changed change.now state.now.state.entries))) }
    ensures err { IfErr result (λ stop. stop ≡ out_of_memory) }
{
    total_laws();
    let _ = state.accepted();
    let posting = if gives_another_cause(change) {
        posted_everywhere(alloc, state, timeline, delta, change)?
    } else {
        posted_where_touched(alloc, state, timeline, delta, change)?
    };
    posting.moves(&state.period)
}

// Whether a correction gives its entry another cause.
fn gives_another_cause(change: &Change) -> bool
    ensures { ¬ IsTrue result → KeepsCause change.now }
{
    match change {
        Change::Corrected { old, new } => new.cause != old.cause,
        _ => false,
    }
}

// The changes of amounts if no entry gets another cause: those of the sections that the change
// touches.
fn posted_where_touched<T: Timeline>(
    alloc: Global,
    state: &State,
    timeline: &T,
    delta: &Delta,
    change: &Change,
) -> Result<Posting, Stop>
    requires runs { AreRunsOf state.now.state (T.content timeline.now) }
    requires applies { Applies change.now state.now.state.entries }
    requires changed { IsBookState (with_entries state.now.state
        (changed change.now state.now.state.entries)) }
    requires delta { IsDelta state.now.state.network delta.now (T.content timeline.now)
        (runs_in (with_entries state.now.state (changed change.now state.now.state.entries))) }
    requires cause { KeepsCause change.now }
    ensures posted { IfOk result (λ posting. Balances (day_count state.now.state.period) posting
        (amount state.now.state) (amount (with_entries state.now.state
        (changed change.now state.now.state.entries)))) }
    ensures err { IfErr result (λ stop. stop ≡ out_of_memory) }
{
    section_laws();
    cause_laws();
    let _ = state.accepted();
    let mut posting = Posting::new(alloc);
    let touched = delta.touched();
    for node in touched {
        post_touched(&mut posting, state, timeline, delta, change, *node)?;
    }
    Ok(posting)
}

// The changes of amounts if an entry gets another cause: the outage intervals that change, and in
// every section the interval whose cause changes.
fn posted_everywhere<T: Timeline>(
    alloc: Global,
    state: &State,
    timeline: &T,
    delta: &Delta,
    change: &Change,
) -> Result<Posting, Stop>
    requires runs { AreRunsOf state.now.state (T.content timeline.now) }
    requires applies { Applies change.now state.now.state.entries }
    requires changed { IsBookState (with_entries state.now.state
        (changed change.now state.now.state.entries)) }
    requires delta { IsDelta state.now.state.network delta.now (T.content timeline.now)
        (runs_in (with_entries state.now.state (changed change.now state.now.state.entries))) }
    ensures posted { IfOk result (λ posting. Balances (day_count state.now.state.period) posting
        (amount state.now.state) (amount (with_entries state.now.state
        (changed change.now state.now.state.entries)))) }
    ensures err { IfErr result (λ stop. stop ≡ out_of_memory) }
{
    section_laws();
    let _ = state.accepted();
    let mut posting = Posting::new(alloc);
    for node in 0..state.net.nodes() {
        post_node(&mut posting, state, timeline, delta, change, node)?;
    }
    Ok(posting)
}

// Adds the changes of amounts of a node, if it is a section: those of the outage intervals that
// change, or else of the interval whose cause changes.
fn post_node<T: Timeline>(
    posting: &mut Posting,
    state: &State,
    timeline: &T,
    delta: &Delta,
    change: &Change,
    node: u16,
) -> Result<(), Stop>
    requires sound { IsSoundState state.now.state }
    requires runs { AreRunsOf state.now.state (T.content timeline.now) }
    requires applies { Applies change.now state.now.state.entries }
    requires changed { IsBookState (with_entries state.now.state
        (changed change.now state.now.state.entries)) }
    requires delta { IsDelta state.now.state.network delta.now (T.content timeline.now)
        (runs_in (with_entries state.now.state (changed change.now state.now.state.entries))) }
    requires node { node < length state.now.state.network.nodes }
    ensures posted { BalancesFirst state.now.state (changed change.now state.now.state.entries) node
        posting.old → OnOk result (BalancesFirst state.now.state
        (changed change.now state.now.state.entries) (node + 1) posting.new) }
    ensures err { IfErr result (λ stop. stop ≡ out_of_memory) }
{
    section_laws();
    if delta.touched().binary_search(&node).is_ok() {
        return post_touched(posting, state, timeline, delta, change, node);
    }
    let Some(feeder) = state.net.feeder_of(node) else {
        return Ok(());
    };
    let old = timeline.runs_of(node);
    let basis = Basis {
        sheet: &state.sheet,
        feeder,
        roll: &state.roll,
        period: &state.period,
    };
    posting.relabel(old, &basis, change)
}

// Adds the changes of amounts of a touched section: those of the outage intervals that change.
fn post_touched<T: Timeline>(
    posting: &mut Posting,
    state: &State,
    timeline: &T,
    delta: &Delta,
    change: &Change,
    node: u16,
) -> Result<(), Stop>
    requires sound { IsSoundState state.now.state }
    requires runs { AreRunsOf state.now.state (T.content timeline.now) }
    requires applies { Applies change.now state.now.state.entries }
    requires changed { IsBookState (with_entries state.now.state
        (changed change.now state.now.state.entries)) }
    requires delta { IsDelta state.now.state.network delta.now (T.content timeline.now)
        (runs_in (with_entries state.now.state (changed change.now state.now.state.entries))) }
    requires node { node < length state.now.state.network.nodes }
    requires touched { IsSome (new_runs delta.now node) }
    ensures posted { Posts (day_count state.now.state.period) posting.old posting.new result
        (amount_of_node state.now.state node) (amount_of_node
        (with_entries state.now.state (changed change.now state.now.state.entries)) node) }
    ensures err { IfErr result (λ stop. stop ≡ out_of_memory) }
{
    section_laws();
    // A bus, not a section: it has no customers, so no amount changes.
    let Some(feeder) = state.net.feeder_of(node) else {
        return Ok(());
    };
    let basis = Basis {
        sheet: &state.sheet,
        feeder,
        roll: &state.roll,
        period: &state.period,
    };
    posting.replace(timeline.runs_of(node), delta.runs(node), &basis, change)
}
