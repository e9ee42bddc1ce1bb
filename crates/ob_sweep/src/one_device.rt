//! What a change of one device that joins two sections alters in the outage intervals.
ghost use Rattle.std.specs.Prelude.{◌≡◌, ◌<◌, ◌≤◌, ◌+◌, ℕ, IfErr, IfOk, IsTrue, Some, [], false, length, map, slice_index_or};
ghost use Rattle.std.specs.List.{All, AllPairs};
ghost use Rattle.ob_base.specs.Stop.{out_of_memory};
ghost use Rattle.ob_net.specs.Nodes.{is_among};
ghost use Rattle.ob_net.specs.Reach.{is_reached};
ghost use Rattle.ob_sheet.specs.Sheet.{NameDevices};
ghost use Rattle.ob_sweep.specs.Deltas.{Fits, IsDelta};
ghost use Rattle.ob_sweep.specs.OneChange.{IsOneChange, JoinsSections};
ghost use Rattle.ob_sweep.specs.Runs.{runs_between};
ghost use Rattle.ob_sweep.specs.Timeline.{AreOfNode, runs_at};
ghost use Rattle.ob_sweep.specs.declared.track.Track.{Track as ATrack};

use crate::difference::tracks_of;
use crate::track::{Track, reach_each};
use crate::{Delta, Run};
use ob_base::{Pos, Second, Stop};
use ob_net::Net;
use ob_sheet::Entry;
use std::alloc::{AllocError, Global};

/// The nodes whose outage intervals don't stay the old ones by what was found, and for each node
/// whether it is one of them.
fn tracked_nodes(
    alloc: Global,
    net: &Net,
    tracks: &[Track],
    first: Second,
) -> Result<(Vec<u16>, Vec<bool>), AllocError>
    requires { length tracks.now ≡ length net.now.network.nodes }
    ensures nodes { IfOk result (λ r. All (λ v. v < length tracks.now) r.0.items) }
    ensures count { IfOk result (λ r. length r.1.items ≡ length tracks.now) }
    ensures marked { IfOk result (λ r. (v : ℕ) → IsTrue (is_reached r.1.items v)
        → IsTrue (is_among r.0.items v)) }
    ensures others { IfOk result (λ r. (v : ℕ) (d : ATrack) → v < length tracks.now
        → is_reached r.1.items v ≡ false → ((slice_index_or tracks.now v d).runs.items ≡ [])
        × ((slice_index_or tracks.now v d).reached ≡ first)
        × ((slice_index_or tracks.now v d).source ≡ Some v)) }
{
    let mut nodes = Vec::new(alloc);
    let mut marks = Vec::with_capacity(alloc, tracks.len())?;
    for node in 0..net.nodes() {
        let is_marked = !is_untouched(&tracks[usize::from(node)], node, first);
        if is_marked {
            nodes.push(node)?;
        }
        marks.push(is_marked)?;
    }
    Ok((nodes, marks))
}

/// Whether nothing was found of a node's outage intervals, and it goes by its own old ones.
fn is_untouched(track: &Track, node: u16, first: Second) -> bool
    ensures { IsTrue result → (track.now.runs.items ≡ []) × (track.now.reached ≡ first)
        × (track.now.source ≡ Some node) }
{
    track.reached == first && track.source == Some(node) && track.runs.is_empty()
}

/// The outage intervals of each node that were found.
fn into_lists(alloc: Global, tracks: Vec<Track>) -> Result<Vec<Vec<Run>>, AllocError>
    ensures { IfOk result (λ lists. map (λ l. l.items) lists.items
        ≡ map (λ t. t.runs.items) tracks.items) }
{
    let mut lists = Vec::with_capacity(alloc, tracks.len())?;
    for track in tracks {
        lists.push(track.runs)?;
    }
    Ok(lists)
}

/// What a change of one device alters in the outage intervals, where it alters the positions from
/// `first` up to `end` alone. The device joins two sections; the devices have these positions just
/// before `first`, and are in service as of it; the entries are those of these seconds after the
/// change, in order.
pub fn plan_one_device(
    alloc: Global,
    net: &mut Net,
    old: &[Vec<Run>],
    device: u16,
    positions: Vec<Pos>,
    entries: &[Entry],
    first: Second,
    end: Second,
) -> Result<Delta, Stop>
    requires device { device < length net.old.network.devices }
    requires positions { length positions.items ≡ length net.old.network.devices }
    requires ends { JoinsSections net.old.network device }
    requires old { length net.old.network.nodes ≤ length old.now }
    requires old_of_nodes { (v : ℕ) → AreOfNode v (runs_at (map (λ l. l.items) old.now) v) }
    requires devices { NameDevices (length net.old.network.devices) entries.now }
    requires rising { AllPairs (λ a b. a.second ≤ b.second) entries.now }
    requires some { first < end }
    requires between { All (λ e. (first ≤ e.second) × (e.second < end)) entries.now }
    requires known { IsOneChange net.old.network device first end positions.items entries.now
        (map (λ l. l.items) old.now) }
    ensures delta { (change : IsOneChange net.old.network device first end positions.items
        entries.now (map (λ l. l.items) old.now)) → IfOk result (λ delta. IsDelta net.old.network
        delta (map (λ l. l.items) old.now)
        (λ v. runs_between v (change.new v) change.lo change.hi)) }
    ensures fits { IfOk result (λ delta. Fits (map (λ l. l.items) old.now) delta) }
    ensures err { IfErr result (λ stop. stop ≡ out_of_memory) }
    ensures network { net.new.network ≡ net.old.network }
    ensures node_room { net.new.node_room ≡ net.old.node_room }
    ensures device_room { net.new.device_room ≡ net.old.device_room }
    ensures searches { net.new.searches ≤ net.old.searches + (1 + length entries.now) }
{
    let mut tracks = tracks_of(alloc, net, old, device, positions, entries, first, end)?;
    let (nodes, marks) = tracked_nodes(alloc, net, &tracks, first)?;
    reach_each(alloc, &mut tracks, &nodes, old, end)?;
    let lists = into_lists(alloc, tracks)?;
    Ok(Delta::splice_near(alloc, net, &marks, old, &lists, first, end)?)
}
