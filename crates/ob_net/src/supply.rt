//! Which nodes are supplied, kept while devices are switched one after another. A switching takes
//! time in proportion to the nodes that it cuts off or supplies again, not to all nodes.
ghost use Rattle.std.specs.Prelude.{◌≡◌, ◌<◌, ◌≤◌, ◌||◌, ◌⊎◌, [], IfOk, IsTrue, false, set, length};
ghost use Rattle.ob_base.specs.declared.Pos.TheVariants.{Closed};
ghost use Rattle.ob_net.specs.Joints.{IsComponent};
ghost use Rattle.ob_net.specs.Nodes.{is_among};
ghost use Rattle.ob_net.specs.Reach.{is_reached};
ghost use Rattle.ob_net.specs.Supplies.{AreChanged};

use crate::GRID;
use crate::component::{finish, race};
use crate::joints::Joints;
use crate::node_set::{NodeSet, set_flags};
use ob_base::Pos;
use std::alloc::{AllocError, Global};
use std::marker::Model;
use std::mem;

/// The positions of a network's devices, and which nodes are supplied at them.
#[derive(Drop)]
pub struct Supply {
    joints: Joints,
    positions: Vec<Pos>,
    live: Vec<bool>,
    changed: NodeSet,
    other: NodeSet,
}

impl Model for Supply {
    ghost use Rattle.ob_net.specs.Supplies.{IsKept, SupplyState};

    ghost Value = { SupplyState };

    ghost view = { λ s. record {
      nodes = s.joints.nodes;
      ends = s.joints.ends;
      positions = s.positions.items;
      live = s.live.items;
      changed = s.changed.nodes;
    } };

    ghost invariant = { λ s. IsKept s.joints s.positions.items s.live.items s.changed s.other };
}

impl Supply {
    /// The supply of nodes that was found for these positions.
    pub(crate) fn new(
        alloc: Global,
        joints: Joints,
        positions: Vec<Pos>,
        live: Vec<bool>,
    ) -> Result<Supply, AllocError>
        requires some { 0 < joints.nodes }
        requires positions { length positions.items ≡ length joints.ends }
        requires count { length live.items ≡ joints.nodes }
        requires live { IsComponent joints.ends positions.items 0 (is_reached live.items) }
        ensures { IfOk result (λ supply. supply ≡ record {
          nodes = joints.nodes;
          ends = joints.ends;
          positions = positions.items;
          live = live.items;
          changed = [];
        }) }
    {
        let nodes = live.len();
        let changed = NodeSet::new(alloc, nodes)?;
        let other = NodeSet::new(alloc, nodes)?;
        Ok(Supply {
            joints,
            positions,
            live,
            changed,
            other,
        })
    }

    /// Which nodes are supplied, by node number.
    pub fn live(&self) -> &[bool]
        ensures { result.now ≡ self.now.live }
    {
        &self.live
    }

    /// The nodes whose supply the last switching changed.
    pub fn changed(&self) -> &[u16]
        ensures { result.now ≡ self.now.changed }
    {
        self.changed.nodes()
    }

    /// The position of each device, by device number.
    pub fn positions(&self) -> &[Pos]
        ensures { result.now ≡ self.now.positions }
    {
        &self.positions
    }

    /// Puts a device into a position, and finds which nodes are supplied then.
    pub(crate) fn switch(&mut self, device: u16, pos: Pos)
        requires { device < length self.old.ends }
        ensures nodes { self.new.nodes ≡ self.old.nodes }
        ensures ends { self.new.ends ≡ self.old.ends }
        ensures positions { self.new.positions ≡ set self.old.positions device pos }
        ensures count { length self.new.live ≡ self.new.nodes }
        ensures live { IsComponent self.new.ends self.new.positions 0 (is_reached self.new.live) }
        ensures changed { AreChanged self.old.live self.new.live self.new.changed }
    {
        let device = usize::from(device);
        self.changed.clear();
        self.other.clear();
        if self.positions[device] == pos {
            return;
        }
        match pos {
            Pos::Closed => {
                connect(
                    &self.joints,
                    &self.positions,
                    device,
                    &mut self.live,
                    &mut self.changed,
                );
                self.positions[device] = Pos::Closed;
            }
            Pos::Opened => {
                self.positions[device] = Pos::Opened;
                disconnect(
                    &self.joints,
                    &self.positions,
                    device,
                    &mut self.live,
                    &mut self.changed,
                    &mut self.other,
                );
            }
        }
    }
}

/// Finds which nodes are supplied once an open device is closed.
pub(crate) fn connect(
    joints: &Joints,
    positions: &[Pos],
    device: usize,
    live: &mut [bool],
    changed: &mut NodeSet,
)
    requires device { device < length joints.now.ends }
    requires grid { 0 < joints.now.nodes }
    requires positions { length positions.now ≡ length joints.now.ends }
    requires count { length live.old ≡ joints.now.nodes }
    requires size { changed.old.size ≡ joints.now.nodes }
    requires none { changed.old.nodes ≡ [] }
    requires live { IsComponent joints.now.ends positions.now 0 (is_reached live.old) }
    ensures size { changed.new.size ≡ changed.old.size }
    ensures live { IsComponent joints.now.ends (set positions.now device Closed) 0
        (is_reached live.new) }
    ensures changed { AreChanged live.old live.new changed.new.nodes }
{
    let (a, b) = joints.ends(device);
    if live[a as usize] == live[b as usize] {
        return;
    }
    let dead = if live[a as usize] { b } else { a };
    changed.insert(dead);
    finish(joints, positions, 0, changed);
    set_flags(live, changed.nodes(), true);
}

/// Finds which nodes are supplied now that a device is open, which was closed before.
pub(crate) fn disconnect(
    joints: &Joints,
    positions: &[Pos],
    device: usize,
    live: &mut [bool],
    changed: &mut NodeSet,
    other: &mut NodeSet,
)
    requires device { device < length joints.now.ends }
    requires grid { 0 < joints.now.nodes }
    requires positions { length positions.now ≡ length joints.now.ends }
    requires count { length live.old ≡ joints.now.nodes }
    requires size { changed.old.size ≡ joints.now.nodes }
    requires other_size { other.old.size ≡ joints.now.nodes }
    requires none { changed.old.nodes ≡ [] }
    requires other_none { other.old.nodes ≡ [] }
    requires live { IsComponent joints.now.ends (set positions.now device Closed) 0
        (is_reached live.old) }
    ensures size { changed.new.size ≡ changed.old.size }
    ensures other_size { other.new.size ≡ other.old.size }
    ensures live { IsComponent joints.now.ends positions.now 0 (is_reached live.new) }
    ensures changed { AreChanged live.old live.new changed.new.nodes }
{
    let (a, b) = joints.ends(device);
    if !live[a as usize] {
        return;
    }
    changed.insert(a);
    other.insert(b);
    let next = race(joints, positions, changed, other);
    choose(next, changed, other);
    finish(joints, positions, next, changed);
    if changed.has(GRID) {
        changed.clear();
    } else {
        set_flags(live, changed.nodes(), false);
    }
}

/// Exchanges two sets if the other one has to be followed to its end: if only it may be cut off from
/// GRID, or if it has no node left.
pub(crate) fn choose(next: usize, one: &mut NodeSet, other: &mut NodeSet)
    requires grid { 0 < one.old.size }
    requires other_grid { 0 < other.old.size }
    requires over { next < length one.old.nodes → next < length other.old.nodes
        → IsTrue (is_among one.old.nodes 0 || is_among other.old.nodes 0) }
    ensures which { ((one.new ≡ one.old) × (other.new ≡ other.old))
        ⊎ ((one.new ≡ other.old) × (other.new ≡ one.old)) }
    ensures rest { is_among other.new.nodes 0 ≡ false
        → (is_among one.new.nodes 0 ≡ false) × (length one.new.nodes ≤ next) }
{
    if !other.has(GRID) && (one.has(GRID) || next < one.len()) {
        mem::swap(one, other);
    }
}
