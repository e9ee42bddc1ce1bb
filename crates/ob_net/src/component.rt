//! Following closed devices from a node.
ghost use Rattle.std.specs.Prelude.{◌≡◌, ◌≤◌, ◌<◌, ◌||◌, ℕ, Bool, IsTrue, false, length};
ghost use Rattle.ob_net.specs.Joints.{AreFollowed, AreSame, IsAlikeOver, IsAlikeWithin, IsComponent, IsExplored};
ghost use Rattle.ob_net.specs.Nodes.{IsLonger, is_among};

use crate::GRID;
use crate::joints::Joints;
use crate::node_set::NodeSet;
use ob_base::Pos;

/// Puts each node to which closed devices join a node into the set.
pub fn follow(joints: &Joints, positions: &[Pos], node: u16, found: &mut NodeSet)
    requires node { node < joints.now.nodes }
    requires positions { length positions.now ≡ length joints.now.ends }
    requires size { found.old.size ≡ joints.now.nodes }
    ensures size { found.new.size ≡ found.old.size }
    ensures longer { IsLonger found.old.nodes found.new.nodes }
    ensures followed { AreFollowed joints.now.ends positions.now node found.new.nodes }
    ensures same { (test : ℕ → Bool) (v : ℕ) → IsAlikeOver test joints.now.ends positions.now
        → test node ≡ test v → AreSame test v found.old.nodes → AreSame test v found.new.nodes }
    ensures within { (test : ℕ → Bool) (v : ℕ)
        → IsAlikeWithin (is_among found.new.nodes) test joints.now.ends positions.now
        → IsTrue (is_among found.old.nodes node)
        → test node ≡ test v → AreSame test v found.old.nodes → AreSame test v found.new.nodes }
{
    let mut joint = joints.last(node);
    while joint > 0 {
        let device = joint as usize - 1;
        if positions[device] == Pos::Closed {
            found.insert(joints.other_end(device, node));
        }
        joint = joints.before(device, node);
    }
}

/// Follows closed devices from the nodes of a set, from one on, until GRID is in it or none is left.
pub fn finish(joints: &Joints, positions: &[Pos], from: usize, found: &mut NodeSet)
    requires grid { 0 < joints.now.nodes }
    requires positions { length positions.now ≡ length joints.now.ends }
    requires size { found.old.size ≡ joints.now.nodes }
    ensures size { found.new.size ≡ found.old.size }
    ensures same { (start : ℕ) → IsExplored joints.now.ends positions.now start found.old.nodes from
        → (test : ℕ → Bool) → IsAlikeOver test joints.now.ends positions.now
        → AreSame test start found.new.nodes }
    ensures whole { (start : ℕ) → IsExplored joints.now.ends positions.now start found.old.nodes from
        → is_among found.new.nodes 0 ≡ false
        → IsComponent joints.now.ends positions.now start (is_among found.new.nodes) }
    ensures explored { (start : ℕ)
        → IsExplored joints.now.ends positions.now start found.old.nodes from
        → IsExplored joints.now.ends positions.now start found.new.nodes from }
    ensures none_left { length found.old.nodes ≤ from → found.new.nodes ≡ found.old.nodes }
{
    let mut next = from;
    while next < found.len() && !found.has(GRID) {
        let node = found.nodes()[next];
        follow(joints, positions, node, found);
        next += 1;
    }
}

/// Follows closed devices from the nodes of two sets in turn, until GRID is in one of them or one has
/// no node left. Answers how many nodes of each were followed.
pub fn race(joints: &Joints, positions: &[Pos], one: &mut NodeSet, other: &mut NodeSet) -> usize
    requires grid { 0 < joints.now.nodes }
    requires positions { length positions.now ≡ length joints.now.ends }
    requires size { one.old.size ≡ joints.now.nodes }
    requires other_size { other.old.size ≡ joints.now.nodes }
    ensures size { one.new.size ≡ one.old.size }
    ensures other_size { other.new.size ≡ other.old.size }
    ensures explored { (start : ℕ) → IsExplored joints.now.ends positions.now start one.old.nodes 0
        → IsExplored joints.now.ends positions.now start one.new.nodes result }
    ensures other_explored { (start : ℕ)
        → IsExplored joints.now.ends positions.now start other.old.nodes 0
        → IsExplored joints.now.ends positions.now start other.new.nodes result }
    ensures over { result < length one.new.nodes → result < length other.new.nodes
        → IsTrue (is_among one.new.nodes 0 || is_among other.new.nodes 0) }
{
    let mut next = 0;
    while next < one.len() && next < other.len() && !one.has(GRID) && !other.has(GRID) {
        let node = one.nodes()[next];
        follow(joints, positions, node, one);
        let node = other.nodes()[next];
        follow(joints, positions, node, other);
        next += 1;
    }
    next
}
