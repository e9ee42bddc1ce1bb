//! A set of nodes that is cleared in time proportional to the nodes in it.
ghost use Rattle.std.specs.Prelude.{◌≡◌, ◌≢◌, ◌<◌, ◌≤◌, ◌||◌, ℕ, [], IfOk, if◌then◌else◌, length};
ghost use Rattle.std.specs.List.{All, AllPairs};
ghost use Rattle.ob_net.specs.Nodes.{is_among, with_one};
ghost use Rattle.ob_net.specs.Reach.{is_reached};

use std::alloc::{AllocError, Global};
use std::marker::Model;

/// A set of nodes, which lists them in the order in which they were put in.
#[derive(Drop)]
pub struct NodeSet {
    nodes: Vec<u16>,
    marks: Vec<bool>,
}

impl Model for NodeSet {
    ghost use Rattle.ob_net.specs.Nodes.{AreMarked, NodeList};
    ghost use Rattle.std.specs.Prelude.{length};
    ghost use Rattle.std.specs.Vec.{vec_capacity};

    ghost Value = { NodeList };

    ghost view = { λ s. record { size = length s.marks.items; nodes = s.nodes.items } };

    ghost invariant = { λ s. AreMarked s.marks.items s.nodes.items (vec_capacity s.nodes) };
}

impl NodeSet {
    /// An empty set, for the nodes below a number.
    pub fn new(alloc: Global, size: usize) -> Result<NodeSet, AllocError>
        ensures { IfOk result (λ set. set ≡ record { size = size; nodes = [] }) }
    {
        Ok(NodeSet {
            nodes: Vec::with_capacity(alloc, size)?,
            marks: vec![in alloc; false; size]?,
        })
    }

    /// How many nodes are in the set.
    pub fn len(&self) -> usize
        ensures count { result ≡ length self.now.nodes }
        ensures few { result ≤ self.now.size }
    {
        self.nodes.len()
    }

    /// The nodes in the set.
    pub fn nodes(&self) -> &[u16]
        ensures nodes { result.now ≡ self.now.nodes }
        ensures below { All (λ v. v < self.now.size) self.now.nodes }
        ensures distinct { AllPairs (λ v w. v ≢ w) self.now.nodes }
    {
        &self.nodes
    }

    /// Whether a node is in the set.
    pub fn has(&self, node: u16) -> bool
        requires { node < self.now.size }
        ensures { result ≡ is_among self.now.nodes node }
    {
        self.marks[node as usize]
    }

    /// Puts a node into the set.
    pub fn insert(&mut self, node: u16)
        requires { node < self.old.size }
        ensures size { self.new.size ≡ self.old.size }
        ensures nodes { self.new.nodes ≡ with_one self.old.nodes node }
    {
        if !self.marks[node as usize] {
            self.marks[node as usize] = true;
            self.nodes.push_reserved(node);
        }
    }

    /// Puts several nodes into the set.
    pub fn insert_all(&mut self, nodes: &[u16])
        requires { All (λ v. v < self.old.size) nodes.now }
        ensures size { self.new.size ≡ self.old.size }
        ensures nodes { (v : ℕ) → is_among self.new.nodes v
            ≡ (is_among self.old.nodes v || is_among nodes.now v) }
    {
        for node in nodes {
            self.insert(*node);
        }
    }

    /// Takes all nodes out of the set.
    pub fn clear(&mut self)
        ensures size { self.new.size ≡ self.old.size }
        ensures nodes { self.new.nodes ≡ [] }
    {
        set_flags(&mut self.marks, &self.nodes, false);
        self.nodes.clear();
    }
}

/// Sets the flags of the listed nodes.
pub fn set_flags(flags: &mut [bool], nodes: &[u16], value: bool)
    requires { All (λ v. v < length flags.old) nodes.now }
    ensures { (v : ℕ) → is_reached flags.new v
        ≡ (if is_among nodes.now v then value else is_reached flags.old v) }
{
    for node in nodes {
        flags[*node as usize] = value;
    }
}
