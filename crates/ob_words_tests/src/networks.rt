//! Tests of the network: its parts by name and by number, and the nodes that are supplied. Its
//! limits are tested in `ob_total_tests`.
ghost use Rattle.std.specs.Prelude.{◌≤◌};
ghost use Rattle.ob_net.specs.Supplies.{IsOf};
ghost use Rattle.ob_net.specs.Traces.{IsTracerOf};

use ob_command::{Command, NewDevice, read_body};
use ob_net::Pos::{Closed, Opened};
use ob_net::{
    Name, Net, Node, Pos, Refusal, Stop, Supply, Tracer, apart_law, cut_off_law, grid, joined_law,
    walk_law,
};
use std::alloc::Global;
use std::process::Abort;
use std::test::Fail;

// Two feeders from two buses, and a tie between their last sections.
const MESHED: &'static str = "\
bus BUS-A
bus BUS-B
section S1 1
section S2 1
section S3 255
device CB-A GRID BUS-A closed 0 -
device CB-B BUS-B GRID closed 0 -
device D1 BUS-A S1 closed 0 -
device D2 S2 S1 closed 0 -
device D3 BUS-B S3 closed 0 -
device TIE S2 S3 open 0 -
";

// Adds the part that a body text names; answers why it is refused, or None.
fn add(net: &mut Net, body: &str) -> Result<Option<Refusal>, Fail> {
    let command = read_body(body.as_bytes()).ok_or("a command")?;
    match &command {
        Command::Bus { name } => add_bus(net, *name),
        Command::Section { name, feeder } => add_section(net, *name, feeder.get()),
        Command::Device(device) => add_device(net, device),
        _ => Err("no part of a network".into()),
    }
}

fn add_bus(net: &mut Net, name: Name) -> Result<Option<Refusal>, Fail> {
    net.reserve_one()?;
    Ok(net.add_bus(name).err())
}

fn add_section(net: &mut Net, name: Name, feeder: u8) -> Result<Option<Refusal>, Fail>
    requires { 1 ≤ feeder }
{
    net.reserve_one()?;
    Ok(net.add_section(name, feeder).err())
}

fn add_device(net: &mut Net, device: &NewDevice) -> Result<Option<Refusal>, Fail> {
    net.reserve_one()?;
    let (a, b, life) = (*device.ends.a(), *device.ends.b(), device.life.life());
    Ok(net.add_device(device.name, a, b, device.normal, life).err())
}

/// Adds the parts that body texts name, one a line; a line may end with ` => ` and the name of the
/// expected refusal.
pub fn add_all(rt: &impl Abort, net: &mut Net, script: &str) -> Result<(), Fail> {
    for line in script.lines() {
        let (body, wanted) = line.split_once(" => ").unwrap_or((line, ""));
        let found = match add(net, body)? {
            Some(refusal) => refusal.name(),
            None => "",
        };
        assert!(rt; found == wanted, "{line}: {found}");
    }
    Ok(())
}

fn meshed(rt: &impl Abort, alloc: Global) -> Result<Net, Fail> {
    let mut net = Net::new(alloc)?;
    add_all(rt, &mut net, MESHED)?;
    Ok(net)
}

// A name; the number and the feeder of the node that has it, or None; the number and the normal
// position of the device that has it, or None.
type Part<'t> = (&'t [u8], Option<(u16, Option<u8>)>, Option<(u16, Pos)>);

fn has_parts(rt: &impl Abort, net: &Net, parts: &[Part<'_>]) -> Result<(), Fail> {
    for (text, node, device) in parts {
        let name = Name::read(text).ok_or("a name")?;
        match net.node_of(&name) {
            Some(number) => assert!(rt; *node == Some((number, net.feeder_of(number)))),
            None => assert!(rt; *node == None),
        }
        match net.device_of(&name) {
            Some(number) => {
                assert!(rt; *device == Some((number, net.normal(number))));
                assert!(rt; net.device_name(number) == name);
            }
            None => assert!(rt; *device == None),
        }
    }
    Ok(())
}

// The parts of the network above, a name of none, and the first node.
#[test]
fn nodes_and_devices(rt: HostRuntime) -> Result<(), Fail> {
    let net = meshed(&rt, rt.alloc())?;
    assert!(rt; net.nodes() == 6 && net.devices() == 6 && net.searches() == 0);
    let parts: &[Part<'_>] = &[
        (b"GRID", Some((0, None)), None),
        (b"BUS-A", Some((1, None)), None),
        (b"BUS-B", Some((2, None)), None),
        (b"S1", Some((3, Some(1))), None),
        (b"S2", Some((4, Some(1))), None),
        (b"S3", Some((5, Some(255))), None),
        (b"CB-A", None, Some((0, Closed))),
        (b"CB-B", None, Some((1, Closed))),
        (b"D1", None, Some((2, Closed))),
        (b"D2", None, Some((3, Closed))),
        (b"D3", None, Some((4, Closed))),
        (b"TIE", None, Some((5, Opened))),
        (b"S4", None, None),
    ];
    has_parts(&rt, &net, parts)?;
    assert!(rt; net.nodes_of(1) == (2, 0));
    let Node { name, feeder } = grid();
    assert!(rt; name.bytes() == b"GRID".as_slice() && feeder == None);
    Ok(())
}

// A bus is added to a network of GRID alone, and removed again.
#[test]
fn a_node_is_taken_back(rt: HostRuntime) -> Result<(), Fail> {
    let bus = Name::read(b"BUS-A").ok_or("a name")?;
    let mut net = Net::new(rt.alloc())?;
    net.reserve_one()?;
    assert!(rt; net.nodes() == 1 && net.add_bus(bus) == Ok(()));
    assert!(rt; net.nodes() == 2);
    net.take_back_node();
    assert!(rt; net.nodes() == 1 && net.node_of(&bus) == None);
    Ok(())
}

// The tie is removed and added again.
#[test]
fn a_device_is_taken_back(rt: HostRuntime) -> Result<(), Fail> {
    let mut net = meshed(&rt, rt.alloc())?;
    assert!(rt; net.devices() == 6);
    net.take_back_device();
    assert!(rt; net.nodes() == 6 && net.devices() == 5);
    let parts: &[Part<'_>] = &[(b"D3", None, Some((4, Closed))), (b"TIE", None, None)];
    has_parts(&rt, &net, parts)?;
    add_all(&rt, &mut net, "device TIE S1 S3 open 0 -")
}

// A section and a device at it.
#[test]
fn parts_that_are_not_refused(rt: HostRuntime) -> Result<(), Fail> {
    let mut net = meshed(&rt, rt.alloc())?;
    let name = Name::read(b"S9").ok_or("a name")?;
    net.reserve_one()?;
    assert!(rt; net.node_refusal(&name) == None);
    net.add_node(Node {
        name,
        feeder: Some(7),
    });
    let Some(Command::Device(device)) = read_body(b"device D9 S9 S1 open 5 9") else {
        return Err("a device".into());
    };
    put_device(&rt, &mut net, &device)?;
    let parts: &[Part<'_>] = &[
        (b"S9", Some((6, Some(7))), None),
        (b"D9", None, Some((6, Opened))),
    ];
    has_parts(&rt, &net, parts)
}

// Adds a device between the nodes 6 and 3, which may not be refused.
fn put_device(rt: &impl Abort, net: &mut Net, device: &NewDevice) -> Result<(), Stop> {
    net.reserve_one()?;
    let (a, b) = (device.ends.a(), device.ends.b());
    let ends = net.ends_of(&device.name, a, b, device.life.life())?;
    assert!(rt; ends == (6, 3));
    net.join(device.between(ends.0, ends.1));
    Ok(())
}

// Positions of the devices CB-A, CB-B, D1, D2, D3 and TIE, closed or open, and which of the nodes
// GRID, BUS-A, BUS-B, S1, S2 and S3 are then supplied.
const SUPPLY: &'static str = "\
ccccco ++++++ all devices in their normal positions
cccccc ++++++ a loop over the tie
ccocco +++--+ a feeder without supply: its breaker is open
ccoccc ++++++ the same feeder supplied over the tie
cccoco ++++-+ only the last section of the feeder supplied over the tie
occcco +-+--+ a bus without supply
occccc ++++++ the same bus supplied through its own feeder, over the tie
occcoc +-+--- an island of both feeders
oocccc +----- both buses without supply
oooooo +----- every device open
";

// Searches the network once with these positions.
fn supplies(rt: &impl Abort, alloc: Global, net: &mut Net, line: &str) -> Result<(), Fail> {
    let mut positions = Vec::new(alloc);
    let mut wanted = Vec::new(alloc);
    for byte in line.bytes().take(6) {
        positions.push(if byte == b'c' { Closed } else { Opened })?;
    }
    for byte in line.bytes().skip(7).take(6) {
        wanted.push(byte == b'+')?;
    }
    assert!(rt; positions.len() == usize::from(net.devices()));
    let supplied = net.supplied(&positions)?;
    assert!(rt; supplied == wanted, "{line}");
    Ok(())
}

#[test]
fn supply(rt: HostRuntime) -> Result<(), Fail> {
    walk_law();
    let mut net = meshed(&rt, rt.alloc())?;
    for line in SUPPLY.lines() {
        supplies(&rt, rt.alloc(), &mut net, line)?;
    }
    assert!(rt; net.nodes() == 6 && net.devices() == 6 && net.searches() == 10);
    Ok(())
}

// A device, its new position, which of the nodes GRID, BUS-A, BUS-B, S1, S2 and S3 are then
// supplied, and those whose supply this changed.
type Switching = (u16, Pos, &'static [u8; 6], &'static [u16]);

// The breaker of a feeder opens, the tie closes, the switch between its sections opens, and the
// breaker closes, also a second time. Then both buses lose supply; the switch closes between dead
// sections, and one bus supplies all.
const SWITCHINGS: [Switching; 9] = [
    (2, Opened, b"+++--+", &[3, 4]),
    (5, Closed, b"++++++", &[3, 4]),
    (3, Opened, b"+++-++", &[3]),
    (2, Closed, b"++++++", &[3]),
    (2, Closed, b"++++++", &[]),
    (0, Opened, b"+-+-++", &[1, 3]),
    (1, Opened, b"+-----", &[2, 4, 5]),
    (3, Closed, b"+-----", &[]),
    (0, Closed, b"++++++", &[1, 2, 3, 4, 5]),
];

fn switches(rt: &impl Abort, net: &mut Net, supply: &mut Supply, switching: &Switching)
    requires of { IsOf net.old.network supply.old }
    ensures of { IsOf net.new.network supply.new }
{
    let (device, pos, live, changed) = *switching;
    assert!(rt; device < net.devices());
    net.switch(supply, device, pos);
    for (found, wanted) in supply.live().iter().zip(live) {
        assert!(rt; *found == (*wanted == b'+'));
    }
    assert!(rt; supply.live().len() == 6 && supply.changed().len() == changed.len());
    for node in changed {
        assert!(rt; supply.changed().contains(node));
    }
}

#[test]
fn one_switching_after_another(rt: HostRuntime) -> Result<(), Fail> {
    let mut net = meshed(&rt, rt.alloc())?;
    let mut positions = Vec::new(rt.alloc());
    for device in 0..net.devices() {
        positions.push(net.normal(device))?;
    }
    assert!(rt; positions.len() == usize::from(net.devices()));
    let mut supply = net.supply(positions)?;
    for switching in &SWITCHINGS {
        switches(&rt, &mut net, &mut supply, switching);
    }
    assert!(rt; net.nodes() == 6 && net.devices() == 6 && net.searches() == 10);
    Ok(())
}

// Positions of the devices CB-A, CB-B, D1, D2, D3 and TIE, the number of a device, which of the
// nodes GRID, BUS-A, BUS-B, S1, S2 and S3 are near it, and which of the devices are at those nodes.
type Near = (&'static [u8; 6], u16, &'static [u8; 6], &'static [u8; 6]);

// A feeder in its normal positions, by its breaker and by one of its switches; both feeders by the
// tie, open and closed; the sections behind an open breaker; and every device open.
const NEAR: [Near; 6] = [
    (b"ccccco", 2, b"-+-++-", b"+-++-+"),
    (b"ccccco", 0, b"-+-++-", b"+-++-+"),
    (b"ccccco", 5, b"-+++++", b"++++++"),
    (b"cccccc", 4, b"-+++++", b"++++++"),
    (b"ccocco", 3, b"---++-", b"--++-+"),
    (b"oooooo", 1, b"--+---", b"-+--+-"),
];

fn finds_near(rt: &impl Abort, alloc: Global, net: &Net, line: &Near) -> Result<(), Fail> {
    let (text, device, wanted, at) = *line;
    let mut positions = Vec::new(alloc);
    for byte in text {
        positions.push(if *byte == b'c' { Closed } else { Opened })?;
    }
    assert!(rt; net.devices() == 6 && device < 6 && positions.len() == 6);
    let near = net.nodes_near(device, &positions)?;
    assert!(rt; near.len() == 6);
    for (found, wanted) in near.iter().zip(wanted) {
        assert!(rt; *found == (*wanted == b'+'));
    }
    for number in 0..6u16 {
        assert!(rt; net.is_at(number, &near) == (at[usize::from(number)] == b'+'));
    }
    Ok(())
}

#[test]
fn nodes_near_a_device(rt: HostRuntime) -> Result<(), Fail> {
    apart_law();
    let net = meshed(&rt, rt.alloc())?;
    for line in &NEAR {
        finds_near(&rt, rt.alloc(), &net, line)?;
    }
    Ok(())
}

// Positions of the devices CB-A, CB-B, D1, D2, D3 and TIE; the number of a device; the end of it
// that is cut off where it is open, and its other end; which of the nodes GRID, BUS-A, BUS-B, S1, S2
// and S3 are found; how many of its ends each device has among them; and which nodes are supplied.
type Cut = (
    &'static [u8; 6],
    u16,
    Option<(u16, u16)>,
    &'static [u8; 6],
    &'static [u8; 6],
    &'static [u8; 6],
);

// A switch between bus and section, a breaker, and a switch between two sections that is open; a tie
// between two feeders without supply; then the ends that another way connects, by GRID.
const CUTS: [Cut; 6] = [
    (b"ccccco", 2, Some((3, 1)), b"---++-", b"001201", b"++++++"),
    (b"ccccco", 1, Some((2, 0)), b"--+--+", b"010021", b"++++++"),
    (b"cccoco", 3, Some((4, 3)), b"----+-", b"000101", b"++++-+"),
    (b"oocccc", 5, Some((5, 4)), b"--+--+", b"010021", b"+-----"),
    (b"cccccc", 2, None, b"++++++", b"222222", b"++++++"),
    (b"ccccco", 5, None, b"++++++", b"222222", b"++++++"),
];

fn cuts_off(
    rt: &impl Abort,
    alloc: Global,
    net: &mut Net,
    tracer: &mut Tracer,
    line: &Cut,
) -> Result<(), Fail>
    requires of { IsTracerOf net.old.network tracer.old }
    ensures of { IsTracerOf net.new.network tracer.new }
{
    let (text, device, wanted, found, ends, live) = *line;
    let mut positions = Vec::new(alloc);
    for byte in text {
        positions.push(if *byte == b'c' { Closed } else { Opened })?;
    }
    assert!(rt; net.nodes() == 6 && net.devices() == 6 && device < 6 && positions.len() == 6);
    let cut = net.cut_off(tracer, device, &mut positions);
    assert!(rt; cut.map(|cut| (cut.end, cut.other)) == wanted);
    for node in 0..6u16 {
        assert!(rt; tracer.found().contains(&node) == (found[usize::from(node)] == b'+'));
    }
    for number in 0..6u16 {
        let ends = ends[usize::from(number)];
        assert!(rt; net.is_at_found(tracer, number) == (ends != b'0'));
        assert!(rt; net.is_within_found(tracer, number) == (ends == b'2'));
    }
    let mut supplied = [false; 6];
    net.supplied_among(tracer, &positions, &[0, 1, 2, 3, 4, 5], &mut supplied);
    for (found, wanted) in supplied.iter().zip(live) {
        assert!(rt; *found == (*wanted == b'+'));
    }
    Ok(())
}

#[test]
fn what_a_device_cuts_off(rt: HostRuntime) -> Result<(), Fail> {
    cut_off_law();
    joined_law();
    let mut net = meshed(&rt, rt.alloc())?;
    let mut tracer = net.tracer()?;
    for line in &CUTS {
        cuts_off(&rt, rt.alloc(), &mut net, &mut tracer, line)?;
    }
    assert!(rt; net.searches() == 6);
    Ok(())
}

const NAMES: &'static str = "\
bus GRID => NameTaken
bus S3 => NameTaken
section BUS-A 3 => NameTaken
device D9 S9 S1 closed 0 - => UnknownName
device D9 S1 S9 closed 0 - => UnknownName
device D1 S1 S9 closed 0 - => UnknownName
device D9 D1 S1 closed 0 - => UnknownName
device D1 S1 S3 closed 0 - => NameTaken
device TIE S3 S1 closed 0 - => NameTaken
device S1 S1 S3 closed 0 -
bus TIE
";

#[test]
fn names(rt: HostRuntime) -> Result<(), Fail> {
    let mut net = meshed(&rt, rt.alloc())?;
    add_all(&rt, &mut net, NAMES)?;
    assert!(rt; net.nodes() == 7 && net.devices() == 7 && net.searches() == 0);
    Ok(())
}
