//! Tests of the commands that version 1 could accept: its network took no more parts once the
//! switching log had an entry.
use ob_base::Crew;
use ob_base::Pos::Opened;
use ob_command::read_body;
use ob_sheet::Sheet;
use ob_upgrade::fits_version_one;
use std::process::Abort;
use std::test::Fail;

const PARTS: &'static str = "bus BUS-A
section S1 7
device B1 GRID S1 closed 0 -";

const OTHERS: &'static str = "cause 3 STORM
connect 11 S3 1704072600 -
switch B1 open 1704070800 3 K1
withdraw 1 1
mark 2024-02-29 K1";

const NEW: &'static str = "device B1 GRID S1 closed 1 -
device B1 GRID S1 closed 0 1704073200
life T1 0 -";

// Checks whether each of the commands with these bodies fits a switching log.
fn fit(rt: &impl Abort, sheet: &Sheet, bodies: &str, expected: bool) -> Result<(), Fail> {
    for body in bodies.lines() {
        let command = read_body(body.as_bytes()).ok_or("a command")?;
        assert!(rt; fits_version_one(sheet, &command) == expected);
    }
    Ok(())
}

#[test]
fn parts_come_first(rt: HostRuntime) -> Result<(), Fail> {
    let mut sheet = Sheet::new(rt.alloc());
    fit(&rt, &sheet, PARTS, true)?;
    fit(&rt, &sheet, OTHERS, true)?;
    fit(&rt, &sheet, NEW, false)?;
    switch_once(&rt, &mut sheet, b"K1", 5, 3)?;
    fit_behind_an_entry(&rt, &sheet)?;
    assert!(rt; sheet.withdraw(1, 1).is_ok());
    fit_behind_an_entry(&rt, &sheet)
}

fn switch_once(
    rt: &impl Abort,
    sheet: &mut Sheet,
    crew: &[u8],
    second: u64,
    cause: u8,
) -> Result<(), Fail> {
    let crew = Crew::read(crew).ok_or("a crew")?;
    assert!(rt; !sheet.is_full());
    sheet.reserve_one()?;
    sheet.enter(0, Opened, second, cause, crew);
    Ok(())
}

fn fit_behind_an_entry(rt: &impl Abort, sheet: &Sheet) -> Result<(), Fail> {
    fit(rt, sheet, PARTS, false)?;
    fit(rt, sheet, OTHERS, true)?;
    fit(rt, sheet, NEW, false)
}
