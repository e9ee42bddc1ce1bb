//! Networks made from the body texts of commands.
use crate::ask::change_network;
use ob_command::read_body;
use ob_net::Net;
use std::alloc::Global;
use std::test::Fail;

// A feeder with S1 and S2 from the breaker B1, with a tie T1 to S3 of another feeder, and a section
// S4 without a device.
const FEEDERS: &'static str = "\
bus BUS-A
section S1 1
section S2 1
section S3 2
section S4 2
device I1 GRID BUS-A closed 0 -
device B1 BUS-A S1 closed 0 -
device W1 S1 S2 closed 0 -
device B2 BUS-A S3 closed 0 -
device T1 S2 S3 open 0 -
";

/// The nodes of the network by number, and one that doesn't exist yet.
pub const NODES: [&'static str; 7] = ["GRID", "BUS-A", "S1", "S2", "S3", "S4", "S5"];

/// The two feeders, with lives of their devices.
pub fn feeders(alloc: Global, lives: &str) -> Result<Net, Fail> {
    net_of(alloc, FEEDERS, lives)
}

/// The network with the parts in one script's lines and the lives of devices in another script's
/// lines.
pub fn net_of(alloc: Global, parts: &str, lives: &str) -> Result<Net, Fail> {
    let mut net = Net::new(alloc)?;
    change(&mut net, parts)?;
    change(&mut net, lives)?;
    Ok(net)
}

// Makes the changes that a script's lines ask for.
fn change(net: &mut Net, script: &str) -> Result<(), Fail> {
    for line in script.lines() {
        let command = read_body(line.as_bytes()).ok_or("a command")?;
        change_network(net, &command)?;
    }
    Ok(())
}
