//! What a change of one device's position alters in the outage intervals.
ghost use Rattle.std.specs.Prelude.{◌≡◌, ◌<◌, ◌≤◌, ◌+◌, ℕ, IfErr, IfOk, drop, length, map, take};
ghost use Rattle.std.specs.List.{All, AllPairs};
ghost use Rattle.ob_base.specs.Stop.{out_of_memory};
ghost use Rattle.ob_sheet.specs.Sheet.{NameDevices};
ghost use Rattle.ob_sweep.specs.Differences.{DifferenceLaw, StretchLaw};
ghost use Rattle.ob_sweep.specs.OneChange.{IsOneChange, JoinsSections};
ghost use Rattle.ob_sweep.specs.Timeline.{AreOfNode, runs_at};
ghost use Rattle.ob_sweep.specs.Tracks.{AreTracked, AreWithin, GoBySections};

use crate::Run;
use crate::cut_off::{CutOff, move_each};
use crate::track::{Track, add_each, own_tracks, reach_each, set_sources};
use ob_base::{Pos, Second, Stop};
use ob_net::Net;
use ob_sheet::Entry;
use std::alloc::{AllocError, Global};

/// The outage intervals after a change of one device, as they are found second by second.
#[derive(Drop)]
pub struct Differences {
    cut: CutOff,
    // The positions before the next entry.
    positions: Vec<Pos>,
    tracks: Vec<Track>,
}

impl Differences {
    ghost use Rattle.std.specs.Prelude.{◌≡◌, ◌<◌, ◌≤◌, ◌+◌, ℕ, List, IfErr, IfOk, OnOk, false, length, map};
    ghost use Rattle.std.specs.List.{All, AllPairs};
    ghost use Rattle.ob_base.specs.Stop.{out_of_memory};
    ghost use Rattle.ob_sheet.specs.Sheet.{NameDevices};
    ghost use Rattle.ob_sweep.specs.CutOffs.{may_alter};
    ghost use Rattle.ob_sweep.specs.OneChange.{IsFirst, IsOneChange, JoinsSections};
    ghost use Rattle.ob_sweep.specs.States.{IsGone, IsState, IsTaken};
    ghost use Rattle.ob_sweep.specs.Timeline.{AreOfNode, runs_at};
    ghost use Rattle.ob_sweep.specs.Tracks.{AreTracked, GoBySections};
    ghost use Rattle.ob_sweep.specs.declared.Run.{Run as ARun};

    /// Finds what a device cuts off before the entries of a window. The devices have these positions
    /// then, and are in service as of the window's first second.
    fn find(
        alloc: Global,
        net: &mut Net,
        device: u16,
        first: Second,
        positions: Vec<Pos>,
    ) -> Result<Differences, Stop>
        requires device { device < length net.old.network.devices }
        requires positions { length positions.items ≡ length net.old.network.devices }
        ensures state { IfOk result (λ x. IsState net.old.network x) }
        ensures first { IfOk result (λ x. IsFirst device first positions.items x) }
        ensures err { IfErr result (λ stop. stop ≡ out_of_memory) }
        ensures network { net.new.network ≡ net.old.network }
        ensures node_room { net.new.node_room ≡ net.old.node_room }
        ensures device_room { net.new.device_room ≡ net.old.device_room }
        ensures searches { net.new.searches ≤ net.old.searches + 1 }
    {
        let mut at_device = Vec::with_capacity(alloc, positions.len())?;
        at_device.extend_from_slice(&positions)?;
        let cut = CutOff::find(net, device, first, at_device)?;
        let tracks = own_tracks(alloc, net.nodes(), first)?;
        Ok(Differences {
            cut,
            positions,
            tracks,
        })
    }

    /// Takes the entries of a window, second by second.
    fn take_window(
        &mut self,
        alloc: Global,
        net: &mut Net,
        old: &[Vec<Run>],
        entries: &[Entry],
        first: Second,
        end: Second,
    ) -> Result<(), AllocError>
        requires state { IsState net.old.network self.old }
        requires own { IsFirst self.old.cut.device first self.old.positions.items self.old }
        requires ends { JoinsSections net.old.network self.old.cut.device }
        requires old { length net.old.network.nodes ≤ length old.now }
        requires old_of_nodes { (v : ℕ) → AreOfNode v (runs_at (map (λ l. l.items) old.now) v) }
        requires devices { NameDevices (length net.old.network.devices) entries.now }
        requires rising { AllPairs (λ a b. a.second ≤ b.second) entries.now }
        requires some { first < end }
        requires between { All (λ e. (first ≤ e.second) × (e.second < end)) entries.now }
        ensures state { OnOk result (IsState net.old.network self.new) }
        ensures sections { OnOk result (GoBySections net.old.network self.new.tracks.items) }
        ensures tracked { (change : IsOneChange net.old.network self.old.cut.device first end
            self.old.positions.items entries.now (map (λ l. l.items) old.now))
            → OnOk result (AreTracked net.old.network change.old change.new change.lo first end
            self.new.tracks.items) }
        ensures network { net.new.network ≡ net.old.network }
        ensures node_room { net.new.node_room ≡ net.old.node_room }
        ensures device_room { net.new.device_room ≡ net.old.device_room }
        ensures searches { net.new.searches ≤ net.old.searches + length entries.now }
    {
        let mut place = place_behind(entries, 0, first);
        self.take_second(alloc, net, old, &entries[..place], first, first + 1)?;
        while place < entries.len() {
            let second = entries[place].second;
            let next = place_behind(entries, place, second);
            self.take(alloc, net, old, &entries[place..next], second, second + 1)?;
            place = next;
        }
        Ok(())
    }

    /// Takes the entries of a second. `end` is the second after it.
    fn take(
        &mut self,
        alloc: Global,
        net: &mut Net,
        old: &[Vec<Run>],
        entries: &[Entry],
        second: Second,
        end: Second,
    ) -> Result<(), AllocError>
        requires state { IsState net.old.network self.old }
        requires old { length net.old.network.nodes ≤ length old.now }
        requires old_of_nodes { (v : ℕ) → AreOfNode v (runs_at (map (λ l. l.items) old.now) v) }
        requires devices { NameDevices (length net.old.network.devices) entries.now }
        requires next { end ≡ second + 1 }
        ensures state { OnOk result (IsState net.old.network self.new) }
        ensures gone { OnOk result (IsGone net.old.network entries.now second
            (map (λ l. l.items) old.now) self.old self.new) }
        ensures network { net.new.network ≡ net.old.network }
        ensures node_room { net.new.node_room ≡ net.old.node_room }
        ensures device_room { net.new.device_room ≡ net.old.device_room }
        ensures searches { net.new.searches ≤ net.old.searches + length entries.now }
    {
        if self.cut.any_alters(net, entries) {
            self.take_second(alloc, net, old, entries, second, end)?;
            return Ok(());
        }
        self.pass(net, entries);
        Ok(())
    }

    /// Takes the entries of a second none of which alters what the device cuts off.
    fn pass(&mut self, net: &Net, entries: &[Entry])
        requires state { IsState net.now.network self.old }
        requires devices { NameDevices (length net.now.network.devices) entries.now }
        requires quiet { All (λ e. may_alter net.now.network self.old.cut.second self.old.cut.cut
            self.old.cut.tracer.found e ≡ false) entries.now }
        ensures state { IsState net.now.network self.new }
        ensures gone { (second : ℕ) (lists : List (List ARun))
            → IsGone net.now.network entries.now second lists self.old self.new }
    {
        self.cut.pass(net, entries);
        let second = self.cut.second();
        move_each(net, &mut self.positions, entries, second);
    }

    /// Takes the entries of a second, some of which may alter what the device cuts off. `end` is
    /// the second after it.
    fn take_second(
        &mut self,
        alloc: Global,
        net: &mut Net,
        old: &[Vec<Run>],
        entries: &[Entry],
        second: Second,
        end: Second,
    ) -> Result<(), AllocError>
        requires state { IsState net.old.network self.old }
        requires old { length net.old.network.nodes ≤ length old.now }
        requires old_of_nodes { (v : ℕ) → AreOfNode v (runs_at (map (λ l. l.items) old.now) v) }
        requires devices { NameDevices (length net.old.network.devices) entries.now }
        requires next { end ≡ second + 1 }
        ensures state { OnOk result (IsState net.old.network self.new) }
        ensures taken { OnOk result (IsTaken net.old.network entries.now second
            (map (λ l. l.items) old.now) self.old self.new) }
        ensures network { net.new.network ≡ net.old.network }
        ensures node_room { net.new.node_room ≡ net.old.node_room }
        ensures device_room { net.new.device_room ≡ net.old.device_room }
        ensures searches { net.new.searches ≤ net.old.searches + length entries.now }
    {
        let nodes = self.cut.take_all(alloc, net, entries)?;
        reach_each(alloc, &mut self.tracks, &nodes, old, second)?;
        let (supplied, cutters) = self
            .cut
            .look(alloc, net, &mut self.positions, &nodes, entries)?;
        add_each(&mut self.tracks, &nodes, &supplied, &cutters, second, end)?;
        let source = self.cut.source();
        set_sources(&mut self.tracks, self.cut.nodes(), source);
        Ok(())
    }
}

/// The place behind the entries at a second, from a place on at which no entry is earlier.
fn place_behind(entries: &[Entry], from: usize, second: Second) -> usize
    requires from { from ≤ length entries.now }
    requires rising { AllPairs (λ a b. a.second ≤ b.second) entries.now }
    requires earlier { All (λ e. e.second ≤ second) (take from entries.now) }
    ensures later { from ≤ result }
    ensures within { result ≤ length entries.now }
    ensures taken { All (λ e. e.second ≤ second) (take result entries.now) }
    ensures rest { All (λ e. second < e.second) (drop result entries.now) }
{
    let mut place = from;
    while place < entries.len() && entries[place].second <= second {
        place += 1;
    }
    place
}

/// Finds the outage intervals of each node over the seconds from `first` up to `end` after a change
/// of one device, as far as they aren't the old ones. The device joins two sections; the devices
/// have these positions just before `first`, and are in service as of it; the entries are those of
/// these seconds after the change, in order.
pub fn tracks_of(
    alloc: Global,
    net: &mut Net,
    old: &[Vec<Run>],
    device: u16,
    positions: Vec<Pos>,
    entries: &[Entry],
    first: Second,
    end: Second,
) -> Result<Vec<Track>, Stop>
    requires device { device < length net.old.network.devices }
    requires positions { length positions.items ≡ length net.old.network.devices }
    requires ends { JoinsSections net.old.network device }
    requires old { length net.old.network.nodes ≤ length old.now }
    requires old_of_nodes { (v : ℕ) → AreOfNode v (runs_at (map (λ l. l.items) old.now) v) }
    requires devices { NameDevices (length net.old.network.devices) entries.now }
    requires rising { AllPairs (λ a b. a.second ≤ b.second) entries.now }
    requires some { first < end }
    requires between { All (λ e. (first ≤ e.second) × (e.second < end)) entries.now }
    ensures count { IfOk result (λ tracks. length tracks.items ≡ length net.old.network.nodes) }
    ensures within { IfOk result (λ tracks. AreWithin (length net.old.network.nodes) tracks.items) }
    ensures sections { IfOk result (λ tracks. GoBySections net.old.network tracks.items) }
    ensures tracked { (change : IsOneChange net.old.network device first end positions.items
        entries.now (map (λ l. l.items) old.now)) → IfOk result (λ tracks. AreTracked net.old.network
        change.old change.new change.lo first end tracks.items) }
    ensures err { IfErr result (λ stop. stop ≡ out_of_memory) }
    ensures network { net.new.network ≡ net.old.network }
    ensures node_room { net.new.node_room ≡ net.old.node_room }
    ensures device_room { net.new.device_room ≡ net.old.device_room }
    ensures searches { net.new.searches ≤ net.old.searches + (1 + length entries.now) }
{
    let mut found = Differences::find(alloc, net, device, first, positions)?;
    found.take_window(alloc, net, old, entries, first, end)?;
    Ok(found.tracks)
}

/// States what the position of one device makes of the outage intervals. Two histories of positions
/// differ in the device alone. A section to which it makes no difference has the same history in
/// both. A section that is supplied through the device alone has no supply while it is open, and
/// the history of the device's other end while it is closed. So it is at each second, and over a
/// stretch of seconds in which the same sections are supplied through the device.
pub fn difference_law()
    ensures seconds { DifferenceLaw }
    ensures stretches { StretchLaw }
{}
