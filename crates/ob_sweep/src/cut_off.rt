//! What a device cuts off, while entries act one after another.
ghost use Rattle.std.specs.Prelude.{◌≡◌, ◌<◌, ◌≤◌, ◌+◌, ◌&&◌, ℕ, Option, Some, IfOk, IfErr, IsTrue, OnOk, false, length, not, slice_index_or, IfSome, if◌then◌else◌};
ghost use Rattle.std.specs.List.{All};
ghost use Rattle.ob_base.specs.Stop.{out_of_memory};
ghost use Rattle.ob_net.specs.Nodes.{is_among};
ghost use Rattle.ob_net.specs.Walk.{is_supplied};
ghost use Rattle.ob_sheet.specs.Sheet.{NameDevices};
ghost use Rattle.ob_sweep.specs.Acting.{moment_of, moved, moved_all, pos_as_of};
ghost use Rattle.ob_sweep.specs.CutOffs.{HasFound, IsCut, may_alter, nodes_through, other_end};
ghost use Rattle.ob_sweep.specs.Differences.{AllDuring, IsIndifferent};

use ob_base::{Pos, Second, Stop};
use ob_net::{CutEnd, Net, Tracer};
use ob_sheet::Entry;
use std::alloc::{AllocError, Global};
use std::mem;

/// What a device cuts off at some positions.
#[derive(Drop)]
pub struct CutOff {
    device: u16,
    // The devices are in service as of this second.
    second: Second,
    positions: Vec<Pos>,
    tracer: Tracer,
    cut: Option<CutEnd>,
}

impl CutOff {
    ghost use Rattle.std.specs.Prelude.{◌≡◌, ◌<◌, ◌≤◌, ◌+◌, ℕ, IfOk, IfErr, IsTrue, length};
    ghost use Rattle.std.specs.List.{All};
    ghost use Rattle.ob_base.specs.Stop.{out_of_memory};
    ghost use Rattle.ob_sweep.specs.Acting.{moved};
    ghost use Rattle.ob_sheet.specs.Sheet.{NameDevices};
    ghost use Rattle.ob_net.specs.Traces.{IsTracerOf};
    ghost use Rattle.std.specs.Prelude.{OnOk, false, slice_index_or};
    ghost use Rattle.ob_base.specs.declared.Pos.TheVariants.{Opened};
    ghost use Rattle.ob_sweep.specs.Acting.{moved_all};
    ghost use Rattle.ob_sweep.specs.CutOffs.{AreCollected, AreLooked, IsCut, may_alter, nodes_through, source_through};

    /// Finds what a device cuts off at some positions, with devices in service as of a second.
    pub fn find(
        net: &mut Net,
        device: u16,
        second: Second,
        mut positions: Vec<Pos>,
    ) -> Result<CutOff, Stop>
        requires device { device < length net.old.network.devices }
        requires positions { length positions.items ≡ length net.old.network.devices }
        ensures cut { IfOk result (λ c. IsCut net.old.network c) }
        ensures device { IfOk result (λ c. c.device ≡ device) }
        ensures second { IfOk result (λ c. c.second ≡ second) }
        ensures positions { IfOk result (λ c. c.positions.items ≡ positions.items) }
        ensures err { IfErr result (λ stop. stop ≡ out_of_memory) }
        ensures network { net.new.network ≡ net.old.network }
        ensures node_room { net.new.node_room ≡ net.old.node_room }
        ensures device_room { net.new.device_room ≡ net.old.device_room }
        ensures searches { net.new.searches ≤ net.old.searches + 1 }
    {
        let mut tracer = net.tracer()?;
        let cut = net.cut_off(&mut tracer, device, &mut positions);
        Ok(CutOff {
            device,
            second,
            positions,
            tracer,
            cut,
        })
    }

    /// The second as of which devices are in service.
    pub fn second(&self) -> Second
        ensures { result ≡ self.now.second }
    {
        self.second
    }

    /// The nodes that are supplied through the device alone.
    pub fn nodes(&self) -> &[u16]
        ensures nodes { result.now ≡ nodes_through self.now.cut self.now.tracer.found }
        ensures below { All (λ v. v < self.now.tracer.nodes) result.now }
    {
        if self.cut.is_some() {
            self.tracer.found()
        } else {
            &[]
        }
    }

    /// What these nodes go by now: the old intervals of the device's other end if the device is
    /// closed, and no supply if it is open.
    pub fn source(&self) -> Option<u16>
        requires { self.now.device < length self.now.positions.items }
        ensures { result ≡ source_through self.now.cut
            (slice_index_or self.now.positions.items self.now.device Opened) }
    {
        let cut = self.cut?;
        if self.positions[usize::from(self.device)] == Pos::Closed {
            Some(cut.other)
        } else {
            None
        }
    }

    /// Whether an entry may alter what the device cuts off.
    pub fn may_alter(&self, net: &Net, entry: &Entry) -> bool
        requires of { IsCut net.now.network self.now }
        requires device { entry.now.device < length net.now.network.devices }
        ensures { result ≡ may_alter net.now.network self.now.second self.now.cut
            self.now.tracer.found entry.now }
    {
        if self.cut.is_some() {
            return net.is_at_found(&self.tracer, entry.device);
        }
        position_of(net, entry, self.second) == Pos::Opened
            && net.is_within_found(&self.tracer, entry.device)
    }

    /// Takes an entry: its device has its new position from then on, and what the device cuts off
    /// is found anew if the entry may alter it.
    pub fn take(&mut self, net: &mut Net, entry: &Entry)
        requires of { IsCut net.old.network self.old }
        requires device { entry.now.device < length net.old.network.devices }
        ensures of { IsCut net.old.network self.new }
        ensures device { self.new.device ≡ self.old.device }
        ensures second { self.new.second ≡ self.old.second }
        ensures positions { self.new.positions.items
            ≡ moved net.old.network self.old.second self.old.positions.items entry.now }
        ensures network { net.new.network ≡ net.old.network }
        ensures node_room { net.new.node_room ≡ net.old.node_room }
        ensures device_room { net.new.device_room ≡ net.old.device_room }
        ensures searches { net.new.searches ≤ net.old.searches + 1 }
    {
        let alters = self.may_alter(net, entry);
        self.positions[usize::from(entry.device)] = position_of(net, entry, self.second);
        if alters {
            self.cut = net.cut_off(&mut self.tracer, self.device, &mut self.positions);
        }
    }

    /// Takes the entries of a second, one after another. Answers the nodes that are supplied through
    /// the device alone before the second or after one of its entries, some of them more than once.
    pub fn take_all(
        &mut self,
        alloc: Global,
        net: &mut Net,
        entries: &[Entry],
    ) -> Result<Vec<u16>, AllocError>
        requires of { IsCut net.old.network self.old }
        requires devices { NameDevices (length net.old.network.devices) entries.now }
        ensures collected { IfOk result (λ nodes. AreCollected net.old.network self.old entries.now
            nodes.items self.new) }
        ensures network { net.new.network ≡ net.old.network }
        ensures node_room { net.new.node_room ≡ net.old.node_room }
        ensures device_room { net.new.device_room ≡ net.old.device_room }
        ensures searches { net.new.searches ≤ net.old.searches + length entries.now }
    {
        let mut nodes = Vec::new(alloc);
        nodes.extend_from_slice(self.nodes())?;
        for entry in entries {
            self.take(net, entry);
            nodes.extend_from_slice(self.nodes())?;
        }
        Ok(nodes)
    }

    /// Whether any of some entries may alter what the device cuts off.
    pub fn any_alters(&self, net: &Net, entries: &[Entry]) -> bool
        requires of { IsCut net.now.network self.now }
        requires devices { NameDevices (length net.now.network.devices) entries.now }
        ensures { ¬ IsTrue result → All (λ e. may_alter net.now.network self.now.second self.now.cut
            self.now.tracer.found e ≡ false) entries.now }
    {
        for entry in entries {
            if self.may_alter(net, entry) {
                return true;
            }
        }
        false
    }

    /// Takes entries none of which alters what the device cuts off.
    pub fn pass(&mut self, net: &Net, entries: &[Entry])
        requires of { IsCut net.now.network self.old }
        requires devices { NameDevices (length net.now.network.devices) entries.now }
        requires quiet { All (λ e. may_alter net.now.network self.old.second self.old.cut
            self.old.tracer.found e ≡ false) entries.now }
        ensures of { IsCut net.now.network self.new }
        ensures device { self.new.device ≡ self.old.device }
        ensures second { self.new.second ≡ self.old.second }
        ensures cut { self.new.cut ≡ self.old.cut }
        ensures tracer { self.new.tracer ≡ self.old.tracer }
        ensures positions { self.new.positions.items ≡ moved_all net.now.network self.old.second
            self.old.positions.items entries.now }
    {
        move_each(net, &mut self.positions, entries, self.second);
    }

    /// Looks at each of some nodes as the entries of a second act, one after another, from the
    /// positions before them on: whether it has supply at last, and which entry was the last to cut
    /// it off.
    pub fn look(
        &mut self,
        alloc: Global,
        net: &Net,
        positions: &mut [Pos],
        nodes: &[u16],
        entries: &[Entry],
    ) -> Result<(Vec<bool>, Vec<Option<u32>>), AllocError>
        requires of { IsTracerOf net.now.network self.old.tracer }
        requires positions { length positions.old ≡ length net.now.network.devices }
        requires nodes { All (λ v. v < length net.now.network.nodes) nodes.now }
        requires devices { NameDevices (length net.now.network.devices) entries.now }
        ensures same { self.new ≡ self.old }
        ensures positions { OnOk result (positions.new ≡ moved_all net.now.network self.old.second
            positions.old entries.now) }
        ensures looked { IfOk result (λ r. AreLooked net.now.network self.old.second positions.old
            entries.now nodes.now r.0.items r.1.items) }
    {
        let mut supplied = vec![in alloc; false; nodes.len()]?;
        let mut next = vec![in alloc; false; nodes.len()]?;
        let mut cutters = vec![in alloc; None; nodes.len()]?;
        net.supplied_among(&mut self.tracer, positions, nodes, &mut supplied);
        for entry in entries {
            positions[usize::from(entry.device)] = position_of(net, entry, self.second);
            net.supplied_among(&mut self.tracer, positions, nodes, &mut next);
            note_cuts(&supplied, &next, &mut cutters, entry.no);
            mem::swap(&mut supplied, &mut next);
        }
        Ok((supplied, cutters))
    }
}

/// Moves the devices of some entries into their new positions, one after another, with devices in
/// service as of a second.
pub fn move_each(net: &Net, positions: &mut [Pos], entries: &[Entry], second: Second)
    requires positions { length positions.old ≡ length net.now.network.devices }
    requires devices { NameDevices (length net.now.network.devices) entries.now }
    ensures { positions.new ≡ moved_all net.now.network second positions.old entries.now }
{
    for entry in entries {
        positions[usize::from(entry.device)] = position_of(net, entry, second);
    }
}

/// Notes the entry with a number as the cutter of each node that had supply before it and has none
/// after it.
fn note_cuts(before: &[bool], after: &[bool], cutters: &mut [Option<u32>], number: u32)
    requires before { length before.now ≡ length cutters.old }
    requires after { length after.now ≡ length cutters.old }
    ensures count { length cutters.new ≡ length cutters.old }
    ensures each { (k : ℕ) (d : Option ℕ) → k < length cutters.old
        → slice_index_or cutters.new k d ≡ (if slice_index_or before.now k false
        && not (slice_index_or after.now k false) then Some number else slice_index_or cutters.old k d) }
{
    for place in 0..cutters.len() {
        if before[place] && !after[place] {
            cutters[place] = Some(number);
        }
    }
}

/// The position that an entry gives its device, with devices in service as of a second: a device
/// that isn't in service is open.
pub fn position_of(net: &Net, entry: &Entry, second: Second) -> Pos
    requires { entry.now.device < length net.now.network.devices }
    ensures { result ≡ pos_as_of net.now.network second entry.now.device entry.now.pos }
{
    if net.life_of(entry.device).holds(second) {
        entry.pos
    } else {
        Pos::Opened
    }
}
