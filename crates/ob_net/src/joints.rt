//! The devices at each node, so that following them from a node takes time in proportion to their
//! number.
ghost use Rattle.std.specs.Prelude.{◌≡◌, ◌<◌, ◌≤◌, IfOk, IsTrue, length};
ghost use Rattle.std.specs.List.{All};
ghost use Rattle.ob_net.specs.Joints.{ends_at, ends_of, is_end, last_at, other_end};
ghost use Rattle.ob_net.specs.Network.{JoinsTwo};

use crate::net::Device;
use std::alloc::{AllocError, Global};
use std::marker::Model;

/// A device between two nodes. Beside each end: one more than the number of the device before this
/// one that is at that end, or 0.
#[derive(Clone, Copy)]
pub struct Joint {
    a: u16,
    b: u16,
    before_a: u16,
    before_b: u16,
}

/// The devices of a network by number; for each node, one more than the number of the last device at
/// it, or 0.
#[derive(Drop)]
pub struct Joints {
    joints: Vec<Joint>,
    last: Vec<u16>,
}

impl Model for Joints {
    ghost use Rattle.ob_net.specs.Joints.{DeviceEnds};
    ghost use Rattle.ob_net.specs.Chains.{AreChained, ends_of_joints};
    ghost use Rattle.std.specs.Prelude.{length};

    ghost Value = { DeviceEnds };

    ghost view = { λ j. record { nodes = length j.last.items; ends = ends_of_joints j.joints.items } };

    ghost invariant = { λ j. AreChained j.last.items j.joints.items };
}

impl Joints {
    /// The devices at each node, of so many nodes.
    pub fn new(alloc: Global, nodes: usize, devices: &[Device]) -> Result<Joints, AllocError>
        requires few { length devices.now ≤ 2048 }
        requires joins { All (JoinsTwo nodes) devices.now }
        ensures { IfOk result (λ joints. joints
            ≡ record { nodes = nodes; ends = ends_of devices.now }) }
    {
        let mut joints = Vec::with_capacity(alloc, devices.len())?;
        let mut last = vec![in alloc; 0u16; nodes]?;
        for number in 0..devices.len() {
            let device = &devices[number];
            let (a, b) = (device.a, device.b);
            joints.push(Joint {
                a,
                b,
                before_a: last[a as usize],
                before_b: last[b as usize],
            })?;
            last[a as usize] = number as u16 + 1;
            last[b as usize] = number as u16 + 1;
        }
        Ok(Joints { joints, last })
    }

    /// The two ends of a device.
    pub fn ends(&self, device: usize) -> (u16, u16)
        requires { device < length self.now.ends }
        ensures ends { result ≡ ends_at self.now.ends device }
        ensures a_is_node { result.0 < self.now.nodes }
        ensures b_is_node { result.1 < self.now.nodes }
    {
        let Joint { a, b, .. } = self.joints[device];
        (a, b)
    }

    /// The other end of a device at a node.
    pub fn other_end(&self, device: usize, node: u16) -> u16
        requires { device < length self.now.ends }
        ensures other { result ≡ other_end node (ends_at self.now.ends device) }
        ensures is_node { result < self.now.nodes }
    {
        let (a, b) = self.ends(device);
        if a == node { b } else { a }
    }

    /// One more than the number of the last device at a node, or 0.
    pub fn last(&self, node: u16) -> u16
        requires { node < self.now.nodes }
        ensures { result ≡ last_at self.now.ends node (length self.now.ends) }
    {
        self.last[node as usize]
    }

    /// One more than the number of the device at a node that comes before another one there, or 0.
    pub fn before(&self, device: usize, node: u16) -> u16
        requires device { device < length self.now.ends }
        requires end { IsTrue (is_end node (ends_at self.now.ends device)) }
        ensures { result ≡ last_at self.now.ends node device }
    {
        let Joint {
            a,
            before_a,
            before_b,
            ..
        } = self.joints[device];
        if a == node { before_a } else { before_b }
    }
}
