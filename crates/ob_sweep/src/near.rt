//! The nodes whose supply a change of a switching log can alter, and the entries that have a part in
//! it. Outside of a change's nodes nothing changes, so that no other switching need be looked at.
ghost use Rattle.std.specs.Prelude.{◌≡◌, ◌<◌, ℕ, IfOk, IfErr, length};
ghost use Rattle.std.specs.List.{All, filter};
ghost use Rattle.ob_base.specs.Stop.{out_of_memory};
ghost use Rattle.ob_base.specs.declared.Pos.TheVariants.{Closed};
ghost use Rattle.ob_net.specs.Joints.{IsClosedAt};
ghost use Rattle.ob_net.specs.Reach.{is_reached};
ghost use Rattle.ob_sheet.specs.Sheet.{NameDevices};
ghost use Rattle.ob_sweep.specs.Near.{AreNear, acts_at};

use ob_base::{Pos, Stop};
use ob_net::Net;
use ob_sheet::Entry;
use std::alloc::{AllocError, Global};

/// Closes each device that one of the steps closes.
fn close_each(positions: &mut [Pos], steps: &[Entry])
    requires devices { NameDevices (length positions.old) steps.now }
    ensures kept { (k : ℕ) → IsClosedAt positions.old k → IsClosedAt positions.new k }
    ensures closed { All (λ e. e.pos ≡ Closed → IsClosedAt positions.new e.device) steps.now }
{
    for step in steps {
        if step.pos == Pos::Closed {
            positions[usize::from(step.device)] = Pos::Closed;
        }
    }
}

/// Finds the nodes whose supply switching a device can alter while the steps act. Earlier entries
/// gave the devices the positions `entered`.
pub fn nodes_near(
    alloc: Global,
    net: &Net,
    entered: &[Pos],
    steps: &[Entry],
    device: u16,
) -> Result<Vec<bool>, Stop>
    requires entered { length entered.now ≡ length net.now.network.devices }
    requires devices { NameDevices (length net.now.network.devices) steps.now }
    requires device { device < length net.now.network.devices }
    ensures count { IfOk result (λ near. length near.items ≡ length net.now.network.nodes) }
    ensures near { IfOk result (λ near. AreNear net.now.network entered.now steps.now device
        (is_reached near.items)) }
    ensures err { IfErr result (λ stop. stop ≡ out_of_memory) }
{
    let mut closed = Vec::with_capacity(alloc, entered.len())?;
    closed.extend_from_slice(entered)?;
    close_each(&mut closed, steps);
    let near = net.nodes_near(device, &closed)?;
    Ok(near)
}

/// The steps of the devices that have an end in a set of nodes.
pub fn steps_near(
    alloc: Global,
    net: &Net,
    near: &[bool],
    steps: &[Entry],
) -> Result<Vec<Entry>, AllocError>
    requires devices { NameDevices (length net.now.network.devices) steps.now }
    requires near { length near.now ≡ length net.now.network.nodes }
    ensures { IfOk result (λ kept. kept.items
        ≡ filter (acts_at net.now.network (is_reached near.now)) steps.now) }
{
    let mut kept = Vec::new(alloc);
    for step in steps {
        if net.is_at(step.device, near) {
            kept.push(*step)?;
        }
    }
    Ok(kept)
}
