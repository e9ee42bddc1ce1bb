//! Tests of the in-service intervals (lives) of devices: their seconds, the life that a network
//! keeps for each device, and the devices that are open outside their lives.
use crate::networks::add_all;
use ob_net::Pos::{Closed, Opened};
use ob_net::{Life, Net, Pos, Refusal, Second};
use std::alloc::Global;
use std::process::Abort;
use std::test::Fail;

// The lives of the three devices below, and two others.
const FIRST: Life = Life {
    since: 0,
    until: None,
};

const SECOND: Life = Life {
    since: 10,
    until: Some(20),
};

const THIRD: Life = Life {
    since: 15,
    until: None,
};

const SHORT: Life = Life {
    since: 3,
    until: Some(4),
};

const EMPTY: Life = Life {
    since: 9,
    until: Some(9),
};

#[test]
fn a_life(rt: HostRuntime) {
    assert!(rt; !SECOND.holds(9) && SECOND.holds(10) && SECOND.holds(19) && !SECOND.holds(20));
    assert!(rt; SECOND.ends_later() && !EMPTY.ends_later());
    assert!(rt; SECOND.next_turn(9, 30) == 10 && SECOND.next_turn(10, 30) == 20);
    assert!(rt; SECOND.next_turn(20, 30) == 30 && SECOND.next_turn(12, 15) == 15);
    assert!(rt; !THIRD.holds(14) && THIRD.holds(15) && THIRD.ends_later());
    assert!(rt; THIRD.next_turn(0, 30) == 15 && THIRD.next_turn(15, 30) == 30);
}

// Three parallel devices.
const THREE: &'static str = "\
bus BUS-A
device D1 GRID BUS-A closed 0 -
device D2 BUS-A GRID closed 10 20
device D3 GRID BUS-A closed 15 -
";

fn three(rt: &impl Abort, alloc: Global) -> Result<Net, Fail> {
    let mut net = Net::new(alloc)?;
    add_all(rt, &mut net, THREE)?;
    Ok(net)
}

// Checks that the devices have their normal positions and these lives.
fn have_lives(rt: &impl Abort, net: &Net, lives: &[Life]) {
    assert!(rt; net.nodes() == 2 && net.devices() == 3 && net.searches() == 0);
    for device in 0..net.devices() {
        assert!(rt; net.normal(device) == Closed);
        assert!(rt; lives.get(usize::from(device)).copied() == Some(net.life_of(device)));
    }
}

const BAD: Result<(), Refusal> = Err(Refusal::BadLife);

// A device, its new life, the expected answer, and the lives of all three devices after it.
const SETTINGS: &'static [(u16, Life, Result<(), Refusal>, &'static [Life])] = &[
    (1, EMPTY, BAD, &[FIRST, SECOND, THIRD]),
    (1, SHORT, Ok(()), &[FIRST, SHORT, THIRD]),
    (1, EMPTY, BAD, &[FIRST, SHORT, THIRD]),
    (0, EMPTY, BAD, &[FIRST, SHORT, THIRD]),
    (0, THIRD, Ok(()), &[THIRD, SHORT, THIRD]),
    (2, SHORT, Ok(()), &[THIRD, SHORT, SHORT]),
    (1, SECOND, Ok(()), &[THIRD, SECOND, SHORT]),
];

#[test]
fn each_device_has_its_life(rt: HostRuntime) -> Result<(), Fail> {
    let mut net = three(&rt, rt.alloc())?;
    for (device, life, wanted, lives) in SETTINGS {
        assert!(rt; *device < net.devices());
        assert!(rt; net.set_life(*device, *life) == *wanted);
        have_lives(&rt, &net, lives);
    }
    assert!(rt; net.devices() == 3 && SHORT.ends_later());
    net.give_life(1, SHORT);
    have_lives(&rt, &net, &[THIRD, SHORT, SHORT]);
    Ok(())
}

const CLOSED: &'static [Pos] = &[Closed, Closed, Closed];

// A second, positions, and the same positions with each device open that is outside its life at
// this second.
const OPEN: &'static [(Second, &'static [Pos], &'static [Pos])] = &[
    (9, CLOSED, &[Closed, Opened, Opened]),
    (10, CLOSED, &[Closed, Closed, Opened]),
    (15, CLOSED, CLOSED),
    (19, &[Opened, Closed, Opened], &[Opened, Closed, Opened]),
    (20, CLOSED, &[Closed, Opened, Closed]),
    (20, &[Opened, Opened, Closed], &[Opened, Opened, Closed]),
];

#[test]
fn devices_are_open_outside_their_lives(rt: HostRuntime) -> Result<(), Fail> {
    let net = three(&rt, rt.alloc())?;
    for (second, positions, wanted) in OPEN {
        let mut found = Vec::from_slice(rt.alloc(), positions)?;
        assert!(rt; found.len() == usize::from(net.devices()));
        net.open_outside_lives(*second, &mut found);
        assert!(rt; found.as_slice() == *wanted);
    }
    Ok(())
}

// A second, an end, and the first second after the given one and before the end at which a life
// begins or ends, or else the end.
const TURNS: &'static [(Second, Second, Second)] = &[
    (0, 100, 10),
    (10, 100, 15),
    (14, 100, 15),
    (15, 100, 20),
    (20, 100, 100),
    (0, 10, 10),
    (0, 9, 9),
    (16, 17, 17),
];

#[test]
fn turns_of_all_lives(rt: HostRuntime) -> Result<(), Fail> {
    let net = three(&rt, rt.alloc())?;
    for (after, end, wanted) in TURNS {
        assert!(rt; *after < *end);
        assert!(rt; net.next_turn(*after, *end) == *wanted);
    }
    Ok(())
}
