//! The outage intervals of single nodes after a change, as far as they are found.
ghost use Rattle.std.specs.Prelude.{◌≡◌, ◌<◌, ◌≤◌, ◌+◌, ℕ, Bool, IfOk, IsTrue, OnOk, Some, None, [], ◌∷◌, false, length, map, not, slice_index_or, if◌then◌else◌};
ghost use Rattle.std.specs.List.{All, AllPairs};
ghost use Rattle.ob_net.specs.Network.{Network};
ghost use Rattle.ob_net.specs.Nodes.{is_among};
ghost use Rattle.ob_sweep.specs.Runs.{History};
ghost use Rattle.ob_sweep.specs.Splice.{back, front, join};
ghost use Rattle.ob_sweep.specs.Timeline.{AreOfNode, runs_at};
ghost use Rattle.ob_sweep.specs.Tracks.{AreAdded, AreOldRuns, AreTracked, AreWithin, GoBySections, cut_to, part_of};
ghost use Rattle.ob_sweep.specs.declared.track.Track.{Track as ATrack};
ghost use Rattle.ob_sweep.specs.declared.Run.{Run as ARun};

use crate::Run;
use crate::splice::{append_joined, places_touching};
use ob_base::Second;
use std::alloc::{AllocError, Global};

/// The outage intervals of a node after a change, as far as they are found.
#[derive(Drop)]
pub struct Track {
    /// The intervals from the window's first second up to `reached`.
    pub runs: Vec<Run>,
    /// The second up to which they are found.
    pub reached: Second,
    /// The node by whose old intervals the node goes from there on; `None` if it has no supply from
    /// there on.
    pub source: Option<u16>,
}

/// The intervals of each node, of which nothing is found yet: each goes by its own old ones.
pub fn own_tracks(alloc: Global, nodes: u16, first: Second) -> Result<Vec<Track>, AllocError>
    ensures count { IfOk result (λ tracks. length tracks.items ≡ nodes) }
    ensures each { IfOk result (λ tracks. (v : ℕ) (d : ATrack) → v < nodes
        → ((slice_index_or tracks.items v d).runs.items ≡ [])
        × ((slice_index_or tracks.items v d).reached ≡ first)
        × ((slice_index_or tracks.items v d).source ≡ Some v)) }
{
    let mut tracks = Vec::with_capacity(alloc, usize::from(nodes))?;
    for node in 0..nodes {
        tracks.push(Track {
            runs: Vec::new(alloc),
            reached: first,
            source: Some(node),
        })?;
    }
    Ok(tracks)
}

/// Outage intervals as far as they lie in the seconds from `first` up to `end`, as those of a
/// section.
fn cut_to(
    alloc: Global,
    section: u16,
    runs: &[Run],
    first: Second,
    end: Second,
) -> Result<Vec<Run>, AllocError>
    ensures { IfOk result (λ part. part.items ≡ cut_to section first end runs.now) }
{
    let mut part = Vec::with_capacity(alloc, runs.len())?;
    for run in runs {
        if first < run.until && run.since < end {
            part.push(Run {
                section,
                since: run.since.max(first),
                until: run.until.min(end),
                cutter: run.cutter,
            })?;
        }
    }
    Ok(part)
}

/// The outage intervals of a section from one second up to another, out of those of another one. It
/// looks only at those that touch these seconds.
fn runs_of_source(
    alloc: Global,
    section: u16,
    runs: &[Run],
    first: Second,
    end: Second,
) -> Result<Vec<Run>, AllocError>
    requires some { All (λ r. r.since < r.until) runs.now }
    requires rising { AllPairs (λ r s. r.until < s.since) runs.now }
    ensures { IfOk result (λ part. part.items ≡ map {A = ARun} (λ r. record r { section = section })
        (back first (front end runs.now))) }
{
    if end <= first {
        return Ok(Vec::new(alloc));
    }
    let (from, to) = places_touching(runs, first, end);
    cut_to(alloc, section, &runs[from..to], first, end)
}

/// The outage intervals of a section from one second up to another, if it goes by the old intervals
/// of a node, or has no supply.
fn part_of(
    alloc: Global,
    source: Option<u16>,
    section: u16,
    old: &[Vec<Run>],
    first: Second,
    end: Second,
) -> Result<Vec<Run>, AllocError>
    requires within { (w : ℕ) → source ≡ Some w → w < length old.now }
    requires old_of_nodes { (v : ℕ) → AreOfNode v (runs_at (map (λ l. l.items) old.now) v) }
    ensures { IfOk result (λ part. part.items
        ≡ part_of (map (λ l. l.items) old.now) source section first end) }
{
    if let Some(source) = source {
        return runs_of_source(alloc, section, &old[usize::from(source)], first, end);
    }
    let mut part = Vec::new(alloc);
    if first < end {
        part.push(Run {
            section,
            since: first,
            until: end,
            cutter: None,
        })?;
    }
    Ok(part)
}

/// Finds the intervals of a node up to a second, out of the old intervals of all nodes.
fn reach(
    alloc: Global,
    track: &mut Track,
    node: u16,
    old: &[Vec<Run>],
    second: Second,
) -> Result<(), AllocError>
    requires within { (w : ℕ) → track.old.source ≡ Some w → w < length old.now }
    requires old_of_nodes { (v : ℕ) → AreOfNode v (runs_at (map (λ l. l.items) old.now) v) }
    ensures runs { OnOk result (track.new.runs.items ≡ join track.old.reached track.old.runs.items
        (part_of (map (λ l. l.items) old.now) track.old.source node track.old.reached second)) }
    ensures reached { OnOk result (track.new.reached ≡ second) }
    ensures source { track.new.source ≡ track.old.source }
{
    let part = part_of(alloc, track.source, node, old, track.reached, second)?;
    append_joined(&mut track.runs, &part, track.reached)?;
    track.reached = second;
    Ok(())
}

/// Finds the intervals of some nodes up to a second.
pub fn reach_each(
    alloc: Global,
    tracks: &mut [Track],
    nodes: &[u16],
    old: &[Vec<Run>],
    second: Second,
) -> Result<(), AllocError>
    requires nodes { All (λ v. v < length tracks.old) nodes.now }
    requires sources { AreWithin (length old.now) tracks.old }
    requires old_of_nodes { (v : ℕ) → AreOfNode v (runs_at (map (λ l. l.items) old.now) v) }
    ensures count { length tracks.new ≡ length tracks.old }
    ensures tracked { (net : Network) (g h : ℕ → History) (lo first hi : ℕ) → lo ≤ first
        → second ≤ hi → AreOldRuns net g lo hi (map (λ l. l.items) old.now)
        → GoBySections net tracks.old → AreTracked net g h lo first second tracks.old
        → OnOk result (AreTracked net g h lo first second tracks.new) }
    ensures sources { (v : ℕ) (d : ATrack) → (slice_index_or tracks.new v d).source
        ≡ (slice_index_or tracks.old v d).source }
    ensures reached { OnOk result ((v : ℕ) (d : ATrack) → IsTrue (is_among nodes.now v)
        → (slice_index_or tracks.new v d).reached ≡ second) }
    ensures others { OnOk result ((v : ℕ) (d : ATrack) → is_among nodes.now v ≡ false
        → slice_index_or tracks.new v d ≡ slice_index_or tracks.old v d) }
{
    for node in nodes {
        reach(alloc, &mut tracks[usize::from(*node)], *node, old, second)?;
    }
    Ok(())
}

/// Adds a second, up to its end, to the intervals of a node that are found up to it, given whether
/// the node has supply then and which entry of the second cut it off.
fn add_second(
    track: &mut Track,
    node: u16,
    second: Second,
    end: Second,
    is_supplied: bool,
    cutter: Option<u32>,
) -> Result<(), AllocError>
    ensures runs { OnOk result (track.new.runs.items ≡ join second track.old.runs.items
        (if not is_supplied then record { section = node; since = second; until = end; cutter = cutter }
        ∷ [] else [])) }
    ensures reached { OnOk result (track.new.reached ≡ end) }
    ensures source { OnOk result (track.new.source ≡ Some node) }
{
    if !is_supplied {
        let run = Run {
            section: node,
            since: second,
            until: end,
            cutter,
        };
        append_joined(&mut track.runs, &[run], second)?;
    }
    track.reached = end;
    track.source = Some(node);
    Ok(())
}

/// Adds a second, up to its end, to the intervals of some nodes that are found up to it, given
/// whether each of them has supply then and which entry of the second cut it off. A node may be
/// listed more than once.
pub fn add_each(
    tracks: &mut [Track],
    nodes: &[u16],
    supplied: &[bool],
    cutters: &[Option<u32>],
    second: Second,
    end: Second,
) -> Result<(), AllocError>
    requires nodes { All (λ v. v < length tracks.old) nodes.now }
    requires supplied { length supplied.now ≡ length nodes.now }
    requires cutters { length cutters.now ≡ length nodes.now }
    requires next { end ≡ second + 1 }
    requires reached { (v : ℕ) (d : ATrack) → IsTrue (is_among nodes.now v)
        → (slice_index_or tracks.old v d).reached ≡ second }
    ensures added { OnOk result (AreAdded nodes.now supplied.now cutters.now second tracks.old
        tracks.new) }
    ensures count { length tracks.new ≡ length tracks.old }
{
    for (place, node) in nodes.iter().enumerate() {
        let track = &mut tracks[usize::from(*node)];
        if track.reached < end {
            add_second(track, *node, second, end, supplied[place], cutters[place])?;
        }
    }
    Ok(())
}

/// Lets some nodes go by the old intervals of a node, or have no supply, from now on.
pub fn set_sources(tracks: &mut [Track], nodes: &[u16], source: Option<u16>)
    requires nodes { All (λ v. v < length tracks.old) nodes.now }
    ensures count { length tracks.new ≡ length tracks.old }
    ensures runs { (v : ℕ) (d : ATrack) → (slice_index_or tracks.new v d).runs
        ≡ (slice_index_or tracks.old v d).runs }
    ensures reached { (v : ℕ) (d : ATrack) → (slice_index_or tracks.new v d).reached
        ≡ (slice_index_or tracks.old v d).reached }
    ensures sources { (v : ℕ) (d : ATrack) → v < length tracks.old
        → (slice_index_or tracks.new v d).source
        ≡ (if is_among nodes.now v then source else (slice_index_or tracks.old v d).source) }
{
    for node in nodes {
        tracks[usize::from(*node)].source = source;
    }
}
