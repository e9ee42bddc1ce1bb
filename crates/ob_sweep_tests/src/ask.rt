//! The change of the switching log or of the network that one command asks for.
ghost use Rattle.std.specs.Prelude.{◌≡◌, ◌<◌, ◌≤◌, List, IfOk, OnOk, length};
ghost use Rattle.std.specs.List.{All};
ghost use Rattle.ob_net.specs.Network.{IsNetwork};
ghost use Rattle.ob_sheet.specs.Sheet.{NameDevices};
ghost use Rattle.ob_sheet.specs.declared.Entry.{Entry as AnEntry};
ghost use Rattle.ob_sweep.specs.Changed.{changed, net_before, Applies, IsAfter};
ghost use Rattle.ob_sweep.specs.Timeline.{LieBetween};
ghost use Rattle.ob_time.specs.Calendar.{first_second_of, end_second_of};

use crate::change::change_by;
use crate::sheet::enter;
use ob_command::{Command, NewDevice};
use ob_net::{Life, MOST_NODES, Name, Net};
use ob_sheet::Sheet;
use ob_sweep::Change;
use ob_time::CivilDays;
use std::test::Fail;

// Whether a command asks for a change of the network.
fn is_of_network(command: &Command) -> bool {
    match command {
        Command::Bus { .. } | Command::Section { .. } | Command::Device(_) | Command::Life { .. } =>
            true,
        _ => false,
    }
}

/// Answers the change that a command asks for. A change of the network is already made, one of the
/// switching log isn't yet.
pub fn change_of(
    net: &mut Net,
    sheet: &Sheet,
    period: &CivilDays,
    command: &Command,
) -> Result<Change, Fail>
    requires devices { NameDevices (length net.old.network.devices) sheet.now.entries }
    requires all { All (λ e. (first_second_of period.now ≤ e.second)
        × (e.second < end_second_of period.now)) sheet.now.entries }
    ensures before { IfOk result (λ c. net_before c net.new.network ≡ net.old.network) }
    ensures after { IfOk result (λ c. IsAfter c net.new.network) }
    ensures applies { IfOk result (λ c. Applies c sheet.now.entries) }
    ensures named { OnOk result (NameDevices (length net.new.network.devices) sheet.now.entries) }
    ensures devices { IfOk result (λ c. NameDevices (length net.new.network.devices)
        (changed c sheet.now.entries)) }
    ensures between { IfOk result (λ c. LieBetween (first_second_of period.now)
        (end_second_of period.now) (changed c sheet.now.entries)) }
{
    if !is_of_network(command) {
        return Ok(change_by(net, sheet, period, command).ok_or("a change")?);
    }
    let change = change_network(net, command)?;
    Ok(change)
}

/// Makes the change of the network that a command asks for.
pub fn change_network(net: &mut Net, command: &Command) -> Result<Change, Fail>
    ensures before { IfOk result (λ c. net_before c net.new.network ≡ net.old.network) }
    ensures after { IfOk result (λ c. IsAfter c net.new.network) }
    ensures applies { (entries : List AnEntry) → IfOk result (λ c. Applies c entries) }
    ensures sheet { (entries : List AnEntry) → IfOk result (λ c. changed c entries ≡ entries) }
    ensures more { OnOk result (length net.old.network.devices ≤ length net.new.network.devices) }
{
    match command {
        Command::Bus { name } => bus_more(net, *name),
        Command::Section { name, feeder } => section_more(net, *name, feeder.get()),
        Command::Device(device) => device_more(net, device),
        Command::Life { device, life } => other_life(net, device, life.life()),
        _ => Err("no change of the network".into()),
    }
}

// Reserves room for one more part in a network that isn't full.
fn room_for_one(net: &mut Net) -> Result<(), Fail>
    ensures is_network { OnOk result (IsNetwork net.old.network) }
    ensures nodes { OnOk result (0 < net.new.node_room) }
    ensures network { net.new.network ≡ net.old.network }
{
    if usize::from(net.nodes()) == MOST_NODES {
        return Err("a full network".into());
    }
    net.reserve_one()?;
    Ok(())
}

fn bus_more(net: &mut Net, name: Name) -> Result<Change, Fail>
    ensures before { IfOk result (λ c. net_before c net.new.network ≡ net.old.network) }
    ensures after { IfOk result (λ c. IsAfter c net.new.network) }
    ensures applies { (entries : List AnEntry) → IfOk result (λ c. Applies c entries) }
    ensures sheet { (entries : List AnEntry) → IfOk result (λ c. changed c entries ≡ entries) }
    ensures more { OnOk result (length net.old.network.devices ≤ length net.new.network.devices) }
{
    room_for_one(net)?;
    net.add_bus(name)?;
    Ok(Change::Bus)
}

fn section_more(net: &mut Net, name: Name, feeder: u8) -> Result<Change, Fail>
    requires { 1 ≤ feeder }
    ensures before { IfOk result (λ c. net_before c net.new.network ≡ net.old.network) }
    ensures after { IfOk result (λ c. IsAfter c net.new.network) }
    ensures applies { (entries : List AnEntry) → IfOk result (λ c. Applies c entries) }
    ensures sheet { (entries : List AnEntry) → IfOk result (λ c. changed c entries ≡ entries) }
    ensures more { OnOk result (length net.old.network.devices ≤ length net.new.network.devices) }
{
    room_for_one(net)?;
    net.add_section(name, feeder)?;
    Ok(Change::Section { feeder })
}

fn device_more(net: &mut Net, device: &NewDevice) -> Result<Change, Fail>
    ensures before { IfOk result (λ c. net_before c net.new.network ≡ net.old.network) }
    ensures after { IfOk result (λ c. IsAfter c net.new.network) }
    ensures applies { (entries : List AnEntry) → IfOk result (λ c. Applies c entries) }
    ensures sheet { (entries : List AnEntry) → IfOk result (λ c. changed c entries ≡ entries) }
    ensures more { OnOk result (length net.old.network.devices ≤ length net.new.network.devices) }
{
    let number = net.devices();
    net.reserve_one()?;
    let (ends, life) = (&device.ends, device.life.life());
    net.add_device(device.name, *ends.a(), *ends.b(), device.normal, life)?;
    Ok(Change::Joined {
        device: number,
        life,
    })
}

#[tactic(auto, using(crate::proofs::Grown::life_before, crate::proofs::Grown::life_after, crate::proofs::Grown::as_many))]
fn other_life(net: &mut Net, name: &Name, life: Life) -> Result<Change, Fail>
    ensures before { IfOk result (λ c. net_before c net.new.network ≡ net.old.network) }
    ensures after { IfOk result (λ c. IsAfter c net.new.network) }
    ensures applies { (entries : List AnEntry) → IfOk result (λ c. Applies c entries) }
    ensures sheet { (entries : List AnEntry) → IfOk result (λ c. changed c entries ≡ entries) }
    ensures more { OnOk result (length net.old.network.devices ≤ length net.new.network.devices) }
{
    let device = net.device_of(name).ok_or("a device")?;
    let old = net.life_of(device);
    net.set_life(device, life)?;
    Ok(Change::Lived {
        device,
        old,
        new: life,
    })
}

/// Makes the change of the switching log that a command asks for.
pub fn obey(sheet: &mut Sheet, net: &Net, period: &CivilDays, command: &Command) -> Result<(), Fail>
    requires devices { NameDevices (length net.now.network.devices) sheet.old.entries }
    requires all { All (λ e. (first_second_of period.now ≤ e.second)
        × (e.second < end_second_of period.now)) sheet.old.entries }
    ensures devices { OnOk result (NameDevices (length net.now.network.devices) sheet.new.entries) }
    ensures all { OnOk result (All (λ e. (first_second_of period.now ≤ e.second)
        × (e.second < end_second_of period.now)) sheet.new.entries) }
{
    if is_of_network(command) {
        return Ok(());
    }
    enter(sheet, net, period, command)
}
