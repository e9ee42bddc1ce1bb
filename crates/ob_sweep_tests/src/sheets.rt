//! Tests of switching logs: the order of their entries, the positions that these leave, corrections
//! and withdrawals. A full log is tested in `ob_total_tests`.
ghost use Rattle.std.specs.Prelude.{IfOk, length};
ghost use Rattle.ob_sheet.specs.Sheet.{NameDevices};

use crate::feeders::net_of;
use crate::sheet::{period_of, sheet_of};
use ob_net::Pos::{Closed, Opened};
use ob_net::{Crew, Net, Pos, Refusal, Second};
use ob_sheet::{Entry, Sheet};
use std::alloc::Global;
use std::process::Abort;
use std::test::Fail;

// Three devices between GRID and a section, the second of them normally open.
const DEVICES: &'static str = "\
section S1 1
device D1 GRID S1 closed 0 -
device D2 GRID S1 open 0 -
device D3 GRID S1 closed 0 -
";

const ENTRIES: &'static str = "\
switch D1 open 200 7 CREW-1
switch D2 close 300 7 CREW-1
switch D1 close 100 7 CREW-1
switch D3 open 200 7 CREW-1
";

// The devices with these lives, and their switching log.
fn switched(alloc: Global, lives: &str) -> Result<(Net, Sheet), Fail>
    ensures { IfOk result (λ s. NameDevices (length s.0.network.devices) s.1.entries) }
{
    let net = net_of(alloc, DEVICES, lives)?;
    let period = period_of(alloc, b"1970-01-01", 1)?;
    let sheet = sheet_of(alloc, &net, &period, ENTRIES)?;
    Ok((net, sheet))
}

// A closing of a device by the crew.
fn closing(crew: Crew, no: u32, rev: u32, device: u16, second: Second, cause: u8) -> Entry {
    Entry {
        no,
        rev,
        device,
        pos: Closed,
        second,
        cause,
        crew,
        kept: true,
    }
}

#[test]
fn a_late_entry_before_an_earlier_opening(rt: HostRuntime) -> Result<(), Fail> {
    let (_, sheet) = switched(rt.alloc(), "")?;
    assert!(rt; sheet.len() == 4 && !sheet.is_full());
    assert!(rt; sheet.in_order() == [3, 1, 4, 2].as_slice());
    let crew = Crew::read(b"CREW-1").ok_or("a crew")?;
    assert!(rt; sheet.entry(3) == Some(closing(crew, 3, 1, 0, 100, 7)));
    assert!(rt; sheet.entry(0) == None && sheet.entry(5) == None);
    Ok(())
}

// The positions before each place in the order of entries, whatever the devices' lives.
const AT_PLACES: &'static [(usize, &'static [Pos])] = &[
    (0, &[Closed, Opened, Closed]),
    (1, &[Closed, Opened, Closed]),
    (2, &[Opened, Opened, Closed]),
    (3, &[Opened, Opened, Opened]),
    (4, &[Opened, Closed, Opened]),
];

#[test]
fn positions_at_each_place(rt: HostRuntime) -> Result<(), Fail> {
    let (net, sheet) = switched(rt.alloc(), "")?;
    assert!(rt; net.devices() == 3 && sheet.in_order().len() == 4);
    for (place, wanted) in AT_PLACES {
        assert!(rt; *place <= sheet.in_order().len());
        let positions = sheet.entered_before(*place, &net)?;
        assert!(rt; positions.as_slice() == *wanted);
    }
    Ok(())
}

// A place in the order of entries, a second, and the positions before that place, with devices open
// outside their lives at that second.
const UNDER_LIVES: &'static [(usize, Second, &'static [Pos])] = &[
    (0, 149, &[Closed, Opened, Closed]),
    (0, 150, &[Opened, Opened, Closed]),
    (1, 149, &[Closed, Opened, Closed]),
    (1, 150, &[Opened, Opened, Closed]),
    (4, 119, &[Opened, Opened, Opened]),
    (4, 120, &[Opened, Closed, Opened]),
    (4, 400, &[Opened, Closed, Opened]),
];

#[test]
fn devices_are_open_outside_their_lives(rt: HostRuntime) -> Result<(), Fail> {
    let (net, sheet) = switched(rt.alloc(), "life D1 0 150\nlife D2 120 -")?;
    assert!(rt; net.devices() == 3 && sheet.in_order().len() == 4);
    for (place, second, wanted) in UNDER_LIVES {
        assert!(rt; *place <= sheet.in_order().len());
        let positions = sheet.positions_before(*place, *second, &net)?;
        assert!(rt; positions.as_slice() == *wanted);
    }
    Ok(())
}

// One second after another, the place in the order of entries after it, and the positions then.
const MOVES: &'static [(Second, usize, &'static [Pos])] = &[
    (99, 0, &[Closed, Opened, Closed]),
    (100, 1, &[Closed, Opened, Closed]),
    (199, 1, &[Closed, Opened, Closed]),
    (200, 3, &[Opened, Opened, Opened]),
    (100, 3, &[Opened, Opened, Opened]),
    (299, 3, &[Opened, Opened, Opened]),
    (400, 4, &[Opened, Closed, Opened]),
];

// Moves on from the normal positions.
fn moves_on(rt: &impl Abort, sheet: &Sheet)
    requires { NameDevices 3 sheet.now.entries }
{
    let mut now = [Closed, Opened, Closed];
    let mut place = 0;
    for (second, after, positions) in MOVES {
        assert!(rt; place <= sheet.in_order().len());
        place = sheet.advance(place, *second, &mut now);
        assert!(rt; place == *after && now.as_slice() == *positions);
    }
}

#[test]
fn positions_move_on_to_a_second(rt: HostRuntime) -> Result<(), Fail> {
    let (net, sheet) = switched(rt.alloc(), "")?;
    assert!(rt; net.devices() == 3);
    moves_on(&rt, &sheet);
    Ok(())
}

// An entry, the revision that was seen, and the refusal of both a correction and a withdrawal.
const REFUSED: &'static [(u32, u32, Refusal)] = &[
    (0, 1, Refusal::UnknownEntry),
    (5, 1, Refusal::UnknownEntry),
    (3, 1, Refusal::Withdrawn),
    (3, 2, Refusal::Withdrawn),
    (4, 1, Refusal::Stale(2)),
    (2, 2, Refusal::Stale(1)),
];

// Corrections move the fourth entry to the front and the first entry to after the opening that
// preceded it; then the third entry is withdrawn.
#[test]
fn entries_are_corrected_and_withdrawn(rt: HostRuntime) -> Result<(), Fail> {
    let (_, mut sheet) = switched(rt.alloc(), "")?;
    let crew = Crew::read(b"CREW-1").ok_or("a crew")?;
    assert!(rt; sheet.correct(4, 1, Closed, 50, 3, crew) == Ok(()));
    assert!(rt; sheet.correct(1, 1, Opened, 300, 7, crew) == Ok(()));
    assert!(rt; sheet.in_order() == [4, 3, 1, 2].as_slice());
    assert!(rt; sheet.withdraw(3, 1) == Ok(()));
    assert!(rt; sheet.entry(4) == Some(closing(crew, 4, 2, 2, 50, 3)));
    for (no, rev, refusal) in REFUSED {
        assert!(rt; sheet.correct(*no, *rev, Opened, 0, 0, crew) == Err(*refusal));
        assert!(rt; sheet.withdraw(*no, *rev) == Err(*refusal));
    }
    assert!(rt; sheet.in_order() == [4, 1, 2].as_slice());
    Ok(())
}

// Enters a closing as the fifth entry, then replaces it by its second revision at an earlier
// second.
fn add_and_replace(rt: &impl Abort, sheet: &mut Sheet, entry: Entry) -> Result<(), Fail> {
    sheet.reserve_one()?;
    assert!(rt; sheet.len() == 4 && entry.no == 5 && entry.rev == 1 && entry.kept);
    sheet.add(entry);
    assert!(rt; sheet.in_order() == [3, 1, 4, 5, 2].as_slice());
    let old = sheet.kept_entry(5, 1)?;
    assert!(rt; old.no == 5 && old == entry);
    let new = Entry {
        rev: 2,
        second: 90,
        ..old
    };
    sheet.replace(old, new);
    assert!(rt; sheet.entry(5) == Some(new));
    Ok(())
}

#[test]
fn an_entry_is_put_in_place_of_another(rt: HostRuntime) -> Result<(), Fail> {
    let (_, mut sheet) = switched(rt.alloc(), "")?;
    let crew = Crew::read(b"CREW-1").ok_or("a crew")?;
    add_and_replace(&rt, &mut sheet, closing(crew, 5, 1, 2, 250, 7))?;
    assert!(rt; sheet.in_order() == [5, 3, 1, 4, 2].as_slice());
    Ok(())
}
