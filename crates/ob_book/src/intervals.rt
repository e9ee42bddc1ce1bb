//! The outage intervals of a node, each with its cause, before an accepted command and after it.
ghost use Rattle.std.specs.Prelude.{◌≡◌, ◌<◌, List, IfOk, IfErr, IsTrue, is_some, length, map};
ghost use Rattle.std.specs.Option.{IfSome};
ghost use Rattle.ob_base.specs.Stop.{out_of_memory};
ghost use Rattle.ob_net.specs.Network.{home_feeder};
ghost use Rattle.ob_post.specs.CauseLaws.{cause_with};
ghost use Rattle.ob_post.specs.Causes.{KeepsCause};
ghost use Rattle.ob_post.specs.SectionAmounts.{run_cause};
ghost use Rattle.ob_sweep.specs.Deltas.{new_runs};
ghost use Rattle.ob_sweep.specs.Deltas as deltas;
ghost use Rattle.ob_sweep.specs.Timeline.{runs_at};
ghost use Rattle.ob_sweep.specs.declared.Run.{Run as ARun};
ghost use Rattle.ob_state.specs.Next.{next};
ghost use Rattle.ob_state.specs.Resolved.{change_by};
ghost use Rattle.ob_state.specs.States.{AreRunsOf};
ghost use Rattle.ob_book.specs.Forecasts.{intervals_of};
ghost use Rattle.ob_book.specs.Intervals.{cause_then, entry_said, interval_then, is_section_then, runs_then};
ghost use Rattle.ob_book.specs.Plans.{IsPlan};

use crate::plan::Plan;
use ob_base::Stop;
use ob_json::OutageInterval;
use ob_net::Net;
use ob_post::laws::cause_laws;
use ob_sheet::{Entry, Sheet};
use ob_state::{Resolved, Retiming, State};
use ob_sweep::{Delta, Run, Timeline};
use std::alloc::Global;

/// Whether a plan alone shows that its command leaves a node's outage intervals and their causes as
/// they are. They may also stay where the answer is `false`.
pub fn keeps_intervals<T: Timeline>(state: &State, plan: &Plan<T>, node: u16) -> bool
    requires plan { IsPlan state.now.state plan.now }
    ensures { IsTrue result → (lists : List (List ARun)) → AreRunsOf state.now.state lists
        → intervals_of state.now.state node
        ≡ intervals_of (next state.now.state plan.now.command) node }
{
    cause_laws();
    let _ = state.accepted();
    if node >= state.net().nodes() || gives_another_cause(plan.resolved()) {
        return false;
    }
    keeps_runs(plan.retiming(), node)
}

/// Returns the outage intervals of a node before a command; none if the node is a bus or isn't
/// there yet. Fails only if an allocation fails.
pub fn intervals_before<T: Timeline>(
    alloc: Global,
    state: &State,
    timeline: &T,
    node: u16,
) -> Result<Vec<OutageInterval>, Stop>
    requires runs { AreRunsOf state.now.state (T.content timeline.now) }
    ensures intervals { IfOk result (λ list. list.items ≡ intervals_of state.now.state node) }
    ensures err { IfErr result (λ stop. stop ≡ out_of_memory) }
{
    if !is_section(state.net(), node) {
        return Ok(Vec::new(alloc));
    }
    with_causes(alloc, state.sheet(), &None, timeline.runs_of(node))
}

/// Returns the outage intervals of a node after the command of a plan; none if the node is a bus
/// then. Fails only if an allocation fails.
pub fn intervals_after<T: Timeline>(
    alloc: Global,
    state: &State,
    timeline: &T,
    plan: &Plan<T>,
    node: u16,
) -> Result<Vec<OutageInterval>, Stop>
    requires runs { AreRunsOf state.now.state (T.content timeline.now) }
    requires plan { IsPlan state.now.state plan.now }
    requires node { node < length (next state.now.state plan.now.command).network.nodes }
    ensures intervals { IfOk result (λ list. list.items
        ≡ intervals_of (next state.now.state plan.now.command) node) }
    ensures err { IfErr result (λ stop. stop ≡ out_of_memory) }
{
    cause_laws();
    let _ = state.accepted();
    let resolved = plan.resolved();
    if !is_section_after(state.net(), resolved, node) {
        return Ok(Vec::new(alloc));
    }
    let runs = runs_after(timeline, plan.retiming(), node);
    with_causes(alloc, state.sheet(), &entry_of(resolved), runs)
}

// Whether a command gives an entry another cause. No outage interval has an added entry's number
// yet, and a withdrawn entry keeps its cause.
#[tactic(auto, using(crate::proofs::Unchanged::keeps_cause))]
fn gives_another_cause(resolved: &Resolved) -> bool
    ensures { ¬ IsTrue result → IfSome (change_by resolved.now) KeepsCause }
{
    match *resolved {
        Resolved::Corrected { old, new } => new.cause != old.cause,
        _ => false,
    }
}

// Whether a change of the outage intervals leaves those of a node as they are.
fn keeps_runs(retiming: &Retiming, node: u16) -> bool
    ensures { IsTrue result → (lists : List (List ARun)) → runs_then retiming.now lists node
        ≡ runs_at lists node }
{
    match retiming {
        Retiming::Same => true,
        Retiming::By(delta) => !is_touched(delta, node),
    }
}

// Whether a change of the outage intervals names a node.
fn is_touched(delta: &Delta, node: u16) -> bool
    ensures { result ≡ is_some (new_runs delta.now node) }
{
    delta.touched().binary_search(&node).is_ok()
}

// Whether a node is a section.
#[tactic(auto, using(crate::proofs::PlannedIntervals::not_there))]
fn is_section(net: &Net, node: u16) -> bool
    ensures { result ≡ is_some (home_feeder net.now.network node) }
{
    if node >= net.nodes() {
        return false;
    }
    net.feeder_of(node).is_some()
}

// Whether a node is a section after a command.
#[tactic(auto, using(crate::proofs::PlannedIntervals::none_joins))]
fn is_section_after(net: &Net, resolved: &Resolved, node: u16) -> bool
    ensures { result ≡ is_section_then net.now.network resolved.now node }
{
    match *resolved {
        Resolved::Node {
            number,
            node: added,
        } => {
            if number == node {
                added.feeder.is_some()
            } else {
                is_section(net, node)
            }
        }
        _ => is_section(net, node),
    }
}

// The entry as it is after a command that enters or corrects one.
#[tactic(auto, using(crate::proofs::PlannedIntervals::none_said))]
fn entry_of(resolved: &Resolved) -> Option<Entry>
    ensures { result ≡ entry_said resolved.now }
{
    match *resolved {
        Resolved::Entered(entry) => Some(entry),
        Resolved::Corrected { new, .. } => Some(new),
        _ => None,
    }
}

// The outage intervals of a node after a change of them.
fn runs_after<'a, T: Timeline>(timeline: &'a T, retiming: &'a Retiming, node: u16) -> &'a [Run]
    requires { node < length (T.content timeline.now) }
    ensures { result.now ≡ runs_then retiming.now (T.content timeline.now) node }
{
    match retiming {
        Retiming::Same => timeline.runs_of(node),
        Retiming::By(delta) => runs_by(timeline, delta, node),
    }
}

fn runs_by<'a, T: Timeline>(timeline: &'a T, delta: &'a Delta, node: u16) -> &'a [Run]
    requires { node < length (T.content timeline.now) }
    ensures { result.now ≡ deltas.runs_after delta.now (T.content timeline.now) node }
{
    if is_touched(delta, node) {
        return delta.runs(node);
    }
    timeline.runs_of(node)
}

// Outage intervals with their causes, where an entry has the cause that it has here.
fn with_causes(
    alloc: Global,
    sheet: &Sheet,
    said: &Option<Entry>,
    runs: &[Run],
) -> Result<Vec<OutageInterval>, Stop>
    ensures intervals { IfOk result (λ list. list.items
        ≡ map (interval_then sheet.now.entries said.now) runs.now) }
    ensures err { IfErr result (λ stop. stop ≡ out_of_memory) }
{
    let mut intervals = Vec::with_capacity(alloc, runs.len())?;
    for run in runs {
        intervals.push(with_cause(sheet, said, run))?;
    }
    Ok(intervals)
}

fn with_cause(sheet: &Sheet, said: &Option<Entry>, run: &Run) -> OutageInterval
    ensures { result ≡ interval_then sheet.now.entries said.now run.now }
{
    OutageInterval {
        since: run.since,
        until: run.until,
        entry: run.cutter,
        cause: cause_of(sheet, said, run),
    }
}

fn cause_of(sheet: &Sheet, said: &Option<Entry>, run: &Run) -> u8
    ensures { result ≡ cause_then sheet.now.entries said.now run.now }
{
    match said {
        Some(entry) => cause_where(sheet, entry, run),
        None => cause_before(sheet, run),
    }
}

// The cause of an outage interval where one entry has this cause and all others have their own.
fn cause_where(sheet: &Sheet, entry: &Entry, run: &Run) -> u8
    ensures { result ≡ cause_with sheet.now.entries entry.now.«no» entry.now.cause run.now }
{
    if run.cutter == Some(entry.no) {
        entry.cause
    } else {
        cause_before(sheet, run)
    }
}

// The cause that an outage interval has before a command; 0 if no entry cut the section off.
pub fn cause_before(sheet: &Sheet, run: &Run) -> u8
    ensures { result ≡ run_cause sheet.now.entries run.now }
{
    let cutter = run.cutter.and_then(|number| sheet.entry(number));
    cutter.map_or(0, |entry| entry.cause)
}
