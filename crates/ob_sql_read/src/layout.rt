//! The nodes and the devices of a book during a replay.
use ob_base::{Life, Stop};
use ob_net::{Device, Node, grid};
use ob_state::Resolved;
use std::alloc::Global;
use std::marker::Model;

/// The nodes and the devices of a book's network, recorded as commands add them. The network itself
/// doesn't show the ends of a device.
#[derive(Drop)]
pub struct Layout {
    nodes: Vec<Node>,
    devices: Vec<Device>,
}

impl Model for Layout {
    ghost use Rattle.ob_net.specs.Network.{Network};

    ghost Value = { Network };

    ghost view = { λ l. record { nodes = l.nodes.items; devices = l.devices.items } };
}

impl Layout {
    ghost use Rattle.std.specs.Prelude.{◌≡◌, IfOk, IfErr, OnOk};
    ghost use Rattle.ob_base.specs.Stop.{out_of_memory};
    ghost use Rattle.ob_net.specs.Network.{grid_alone, with_life};
    ghost use Rattle.ob_sql_read.specs.Layout.{network_by};

    /// GRID alone, as in a new book.
    pub fn new(alloc: Global) -> Result<Layout, Stop>
        ensures network { IfOk result (λ layout. layout ≡ grid_alone) }
        ensures faults { IfErr result (λ stop. stop ≡ out_of_memory) }
    {
        let mut nodes = Vec::new(alloc);
        nodes.push(grid())?;
        Ok(Layout {
            nodes,
            devices: Vec::new(alloc),
        })
    }

    /// Records what a command changes in the network.
    pub(crate) fn note(&mut self, resolved: &Resolved) -> Result<(), Stop>
        ensures noted { OnOk result (self.new ≡ network_by self.old resolved.now) }
        ensures faults { IfErr result (λ stop. stop ≡ out_of_memory) }
    {
        match resolved {
            Resolved::Node { node, .. } => self.nodes.push(*node)?,
            Resolved::Device { device, .. } => self.devices.push(*device)?,
            Resolved::Life { device, new, .. } => self.give_life(*device, *new),
            _ => {}
        }
        Ok(())
    }

    /// Gives another in-service interval to the device with this number, if there is one.
    fn give_life(&mut self, number: u16, life: Life)
        ensures network { self.new ≡ with_life self.old number life }
    {
        if let Some(device) = self.devices.get_mut(usize::from(number)) {
            device.life = life;
        }
    }

    /// The nodes, by number.
    pub fn nodes(&self) -> &[Node]
        ensures { result.now ≡ self.now.nodes }
    {
        &self.nodes
    }

    /// The devices, by number.
    pub fn devices(&self) -> &[Device]
        ensures { result.now ≡ self.now.devices }
    {
        &self.devices
    }
}
