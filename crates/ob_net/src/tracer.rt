//! Following closed devices from single nodes: what a device cuts off, and whether a node is
//! supplied. It takes time in proportion to the nodes that it comes to, not to all nodes.
ghost use Rattle.std.specs.Prelude.{◌≡◌, ◌<◌, ◌⊎◌, ℕ, Bool, None, IfOk, IfSome, IsTrue, length, map, set};
ghost use Rattle.std.specs.List.{All, AllPairs};
ghost use Rattle.std.specs.Prelude.{◌≢◌, []};
ghost use Rattle.ob_base.specs.declared.Pos.TheVariants.{Opened};
ghost use Rattle.ob_net.specs.Joints.{IsComponent, ends_at};
ghost use Rattle.ob_net.specs.Nodes.{is_among};
ghost use Rattle.ob_net.specs.Traces.{AreConnectedWithin, AreTold, IsPartWithout};

use crate::GRID;
use crate::component::{finish, race};
use crate::joints::Joints;
use crate::node_set::NodeSet;
use crate::supply::choose;
use ob_base::Pos;
use std::alloc::{AllocError, Global};
use std::marker::Model;

/// The end of a device that is cut off where the device is open, and the device's other end.
#[derive(Clone, Copy)]
pub struct CutEnd {
    pub end: u16,
    pub other: u16,
}

/// The devices at each node of a network, and sets of nodes for searches from single nodes, so that
/// no search allocates memory.
#[derive(Drop)]
pub struct Tracer {
    joints: Joints,
    found: NodeSet,
    other: NodeSet,
    live: NodeSet,
    dead: NodeSet,
}

impl Model for Tracer {
    ghost use Rattle.ob_net.specs.Traces.{HasSets, TracerState};

    ghost Value = { TracerState };

    ghost view = { λ t. record {
      nodes = t.joints.nodes;
      ends = t.joints.ends;
      found = t.found.nodes;
    } };

    ghost invariant = { λ t. HasSets t.joints t.found t.other t.live t.dead };
}

impl Tracer {
    /// For searches of the network with these nodes and devices.
    pub(crate) fn new(alloc: Global, joints: Joints, nodes: usize) -> Result<Tracer, AllocError>
        requires some { 0 < nodes }
        requires nodes { joints.nodes ≡ nodes }
        ensures { IfOk result (λ tracer. tracer
            ≡ record { nodes = joints.nodes; ends = joints.ends; found = [] }) }
    {
        let found = NodeSet::new(alloc, nodes)?;
        let other = NodeSet::new(alloc, nodes)?;
        let live = NodeSet::new(alloc, nodes)?;
        let dead = NodeSet::new(alloc, nodes)?;
        Ok(Tracer {
            joints,
            found,
            other,
            live,
            dead,
        })
    }

    /// The nodes that the last search for what a device cuts off found.
    pub fn found(&self) -> &[u16]
        ensures found { result.now ≡ self.now.found }
        ensures below { All (λ v. v < self.now.nodes) self.now.found }
        ensures distinct { AllPairs (λ v w. v ≢ w) self.now.found }
    {
        self.found.nodes()
    }

    /// Whether a node is among those that were found.
    pub(crate) fn has(&self, node: u16) -> bool
        requires { node < self.now.nodes }
        ensures { result ≡ is_among self.now.found node }
    {
        self.found.has(node)
    }

    /// The two ends of a device.
    pub(crate) fn ends(&self, device: u16) -> (u16, u16)
        requires { device < length self.now.ends }
        ensures ends { result ≡ ends_at self.now.ends device }
        ensures a_is_node { result.0 < self.now.nodes }
        ensures b_is_node { result.1 < self.now.nodes }
    {
        self.joints.ends(usize::from(device))
    }

    /// Finds which end of a device is cut off where it is open.
    pub(crate) fn cut_off(&mut self, device: u16, positions: &mut [Pos]) -> Option<CutEnd>
        requires device { device < length self.old.ends }
        requires positions { length positions.old ≡ length self.old.ends }
        ensures nodes { self.new.nodes ≡ self.old.nodes }
        ensures ends { self.new.ends ≡ self.old.ends }
        ensures positions { positions.new ≡ positions.old }
        ensures which { IfSome result (λ cut. (ends_at self.old.ends device ≡ (cut.end, cut.other))
            ⊎ (ends_at self.old.ends device ≡ (cut.other, cut.end))) }
        ensures cut { IfSome result (λ cut. IsPartWithout self.old.ends
            (set positions.old device Opened) cut.other cut.end self.new.found) }
        ensures are_nodes { IfSome result (λ cut. (cut.end < self.old.nodes)
            × (cut.other < self.old.nodes)) }
        ensures joined { result ≡ None → AreConnectedWithin self.old.ends
            (set positions.old device Opened) (ends_at self.old.ends device).0
            (ends_at self.old.ends device).1 self.new.found }
    {
        let device = usize::from(device);
        let position = positions[device];
        positions[device] = Pos::Opened;
        self.found.clear();
        self.other.clear();
        let cut = look(
            &self.joints,
            positions,
            device,
            &mut self.found,
            &mut self.other,
        );
        positions[device] = position;
        cut
    }

    /// Tells of each of some nodes whether it is supplied.
    pub(crate) fn supplied_among(&mut self, positions: &[Pos], nodes: &[u16], supplied: &mut [bool])
        requires positions { length positions.now ≡ length self.old.ends }
        requires nodes { All (λ v. v < self.old.nodes) nodes.now }
        requires each { length supplied.old ≡ length nodes.now }
        ensures same { self.new ≡ self.old }
        ensures supplied { (test : ℕ → Bool) → IsComponent self.old.ends positions.now 0 test
            → supplied.new ≡ map test nodes.now }
    {
        self.live.clear();
        self.dead.clear();
        tell_each(
            &self.joints,
            positions,
            nodes,
            supplied,
            &mut self.other,
            &mut self.live,
            &mut self.dead,
        );
    }
}

/// Finds which end of a device is cut off, where the device is open. If neither is, the nodes that
/// were found connect the two ends.
fn look(
    joints: &Joints,
    positions: &[Pos],
    device: usize,
    found: &mut NodeSet,
    other: &mut NodeSet,
) -> Option<CutEnd>
    requires device { device < length joints.now.ends }
    requires grid { 0 < joints.now.nodes }
    requires positions { length positions.now ≡ length joints.now.ends }
    requires size { found.old.size ≡ joints.now.nodes }
    requires other_size { other.old.size ≡ joints.now.nodes }
    requires none { found.old.nodes ≡ [] }
    requires other_none { other.old.nodes ≡ [] }
    ensures size { found.new.size ≡ found.old.size }
    ensures other_size { other.new.size ≡ other.old.size }
    ensures which { IfSome result (λ cut. (ends_at joints.now.ends device ≡ (cut.end, cut.other))
        ⊎ (ends_at joints.now.ends device ≡ (cut.other, cut.end))) }
    ensures cut { IfSome result (λ cut. IsPartWithout joints.now.ends positions.now cut.other
        cut.end found.new.nodes) }
    ensures are_nodes { IfSome result (λ cut. (cut.end < joints.now.nodes)
        × (cut.other < joints.now.nodes)) }
    ensures joined { result ≡ None → AreConnectedWithin joints.now.ends positions.now
        (ends_at joints.now.ends device).0 (ends_at joints.now.ends device).1 found.new.nodes }
{
    let (a, b) = joints.ends(device);
    found.insert(a);
    other.insert(b);
    let next = race(joints, positions, found, other);
    choose(next, found, other);
    finish(joints, positions, next, found);
    let (end, far) = if found.has(a) { (a, b) } else { (b, a) };
    if found.has(far) {
        return None;
    }
    if !found.has(GRID) {
        return Some(CutEnd { end, other: far });
    }
    found.insert_all(other.nodes());
    None
}

/// Tells of each of some nodes whether it is supplied.
fn tell_each(
    joints: &Joints,
    positions: &[Pos],
    nodes: &[u16],
    supplied: &mut [bool],
    near: &mut NodeSet,
    live: &mut NodeSet,
    dead: &mut NodeSet,
)
    requires grid { 0 < joints.now.nodes }
    requires positions { length positions.now ≡ length joints.now.ends }
    requires nodes { All (λ v. v < joints.now.nodes) nodes.now }
    requires each { length supplied.old ≡ length nodes.now }
    requires near_size { near.old.size ≡ joints.now.nodes }
    requires live_size { live.old.size ≡ joints.now.nodes }
    requires dead_size { dead.old.size ≡ joints.now.nodes }
    requires live_none { live.old.nodes ≡ [] }
    requires dead_none { dead.old.nodes ≡ [] }
    ensures near_size { near.new.size ≡ near.old.size }
    ensures live_size { live.new.size ≡ live.old.size }
    ensures dead_size { dead.new.size ≡ dead.old.size }
    ensures supplied { (test : ℕ → Bool) → IsComponent joints.now.ends positions.now 0 test
        → supplied.new ≡ map test nodes.now }
{
    for place in 0..nodes.len() {
        supplied[place] = tell(joints, positions, nodes[place], near, live, dead);
    }
}

/// Tells whether a node is supplied. The nodes of `live` are known to be, those of `dead` not to be.
fn tell(
    joints: &Joints,
    positions: &[Pos],
    node: u16,
    near: &mut NodeSet,
    live: &mut NodeSet,
    dead: &mut NodeSet,
) -> bool
    requires grid { 0 < joints.now.nodes }
    requires positions { length positions.now ≡ length joints.now.ends }
    requires node { node < joints.now.nodes }
    requires near_size { near.old.size ≡ joints.now.nodes }
    requires live_size { live.old.size ≡ joints.now.nodes }
    requires dead_size { dead.old.size ≡ joints.now.nodes }
    ensures near_size { near.new.size ≡ near.old.size }
    ensures live_size { live.new.size ≡ live.old.size }
    ensures dead_size { dead.new.size ≡ dead.old.size }
    ensures told { (test : ℕ → Bool) → IsComponent joints.now.ends positions.now 0 test
        → AreTold test live.old.nodes dead.old.nodes
        → (result ≡ test node) × AreTold test live.new.nodes dead.new.nodes }
{
    if live.has(node) {
        return true;
    }
    if dead.has(node) {
        return false;
    }
    near.clear();
    near.insert(node);
    finish(joints, positions, 0, near);
    let is_supplied = near.has(GRID);
    if is_supplied {
        live.insert_all(near.nodes());
    } else {
        dead.insert_all(near.nodes());
    }
    is_supplied
}
