//! Tests of commands and their texts. The expected texts are written by hand from the form of the
//! rows and of the body texts; the bounds are those of the fields.
use jiff::civil::Date;
use ob_command::{
    CauseCode, CivilDate, Command, Ends, FeederNumber, Moment, Serial, Service, bodies_law,
    body_text, read_body, read_row, rows_law,
};
use ob_net::{LAST_SECOND, Life, Name, Refusal, Second, Stop};
use std::alloc::Global;
use std::process::Abort;
use std::test::Fail;

// One body of each kind, and bodies at the bounds of their fields.
const BODIES: &'static str = "cause 3 STORM
bus BUS-A
section S1 255
section S1 7
device B1 GRID S1 closed 0 -
device X1 BUS-A S1 closed 1704072200 -
device T1 S2 S3 open 0 99999999999
life T1 0 1704073200
life T1 7 7
life T1 99999999999 -
connect 11 S3 1704072600 -
connect 4294967295 S3 0 99999999999
revise 11 1704072600 1704072600
revise 11 0 0
switch B1 open 1704070800 3 K1
correct 4 1 close 1704073800 3 K1
withdraw 4 1
mark 2024-02-29 K1
unmark 2024-02-29 K1
mark 0000-02-29 K1";

// The eight fields of a row.
fn row_of(line: &str) -> [&[u8]; 8] {
    let mut row: [&[u8]; 8] = [b""; 8];
    for (place, field) in line.split(',').enumerate() {
        if let Some(slot) = row.get_mut(place) {
            *slot = field.as_bytes();
        }
    }
    row
}

fn has_body(rt: &impl Abort, alloc: Global, command: &Command, body: &[u8]) -> Result<(), Stop> {
    let text = body_text(alloc, command)?;
    assert!(rt; text.as_slice() == body);
    Ok(())
}

#[test]
fn bodies_and_back(rt: HostRuntime) -> Result<(), Fail> {
    bodies_law();
    for body in BODIES.lines() {
        let command = read_body(body.as_bytes()).ok_or("a command")?;
        has_body(&rt, rt.alloc(), &command, body.as_bytes())?;
    }
    Ok(())
}

// Rows without quotes, with the reference and the body expected from each, or its leftmost bad
// column. The last four bodies are of moments 5,000 and 6,000 seconds after 2024 began.
const ROWS: &'static str = "\
cause,R1,03,STORM,,,, => R1 cause 3 STORM
section,R2,S1,007,,,, => R2 section S1 7
device,R3,B1,GRID,S1,closed,, => R3 device B1 GRID S1 closed 0 -
life,R4,T1,,,,, => R4 life T1 0 -
life,R4,T1,,01704073200,,, => R4 life T1 0 1704073200
life,R4,T1,007,7,,, => R4 life T1 7 7
connect,R4,0011,S3,2024-01-01T01:30:00Z,,, => R4 connect 11 S3 1704072600 -
revise,R4,11,0,00,,, => R4 revise 11 0 0
switch,R5,B1,open,2024-01-01T02:00:00+01:00,3,K1, => R5 switch B1 open 1704070800 3 K1
correct,R6,4,1,close,01704073800,3,K1 => R6 correct 4 1 close 1704073800 3 K1
unmark,R7,2024-02-29,K1,,,, => R7 unmark 2024-02-29 K1
device,R1,X1,BUS-A,S1,closed,2024-01-01T01:23:20Z, => R1 device X1 BUS-A S1 closed 1704072200 -
device,R2,X1,BUS-A,S1,open,,2024-01-01T02:40:00+01:00 => R2 device X1 BUS-A S1 open 0 1704073200
life,R3,T1,2024-01-01T01:23:20Z,1704073200,,, => R3 life T1 1704072200 1704073200
life,R4,T1,,2024-01-01T01:40:00Z,,, => R4 life T1 0 1704073200
fuse,,,,,,, => BadField 1
,R1,,,,,, => BadField 1
bus,r1,,,,,,x => BadField 2
bus,R1,,,,,,x => BadField 3
bus,R1,B1, ,,,,x => BadField 4
bus,R1,B1,,,,,x => BadField 8
cause,R1,64,STORM,,,, => BadField 3
cause,R1,3,AAAAAAAAAAAAAAAAAAAAAAAAA,,,, => BadField 4
device,R1,X1,S1,S1,open,, => BadField 5
device,R1,B1,s1,S1,shut,, => BadField 4
device,R1,B1,S1,S2,shut,, => BadField 6
device,R1,B1,S1,S2,shut,x,x => BadField 6
device,R1,B1,S1,S2,open,-,- => BadField 7
device,R1,B1,S1,S2,open,100000000000, => BadField 7
device,R1,B1,S1,S2,open,,- => BadField 8
device,R1,B1,S1,S2,open,0,2024-02-30T00:00:00Z => BadField 8
lives,R1,T1,,,,, => BadField 1
life,,T1,,,,, => BadField 2
life,R1,,-,,,, => BadField 3
life,R1,T1,-,-,,, => BadField 4
life,R1,T1,,-,x,, => BadField 5
life,R1,T1,,,x,, => BadField 6
life,R1,T1,0,,,x, => BadField 7
life,R1,T1,,1,,,x => BadField 8
connect,R1,1,S1,,-,, => BadField 5
connect,R1,1,S1,0,-,, => BadField 6
revise,R1,0,x,-,,, => BadField 3
switch,R1,B1,open,3600,3,K1,x => BadField 8
correct,R1,1,1,open,0,3, => BadField 8
mark,R1,2024-02-30,,,,, => BadField 3
";

// Checks the reference and the body of a row, or its leftmost bad column.
fn says(rt: &impl Abort, alloc: Global, line: &str) -> Result<(), Fail> {
    let (row, wanted) = line.split_once(" => ").ok_or("a line")?;
    let (first, rest) = wanted.split_once(" ").ok_or("a body")?;
    match read_row(&row_of(row)) {
        Ok((reference, command)) => {
            assert!(rt; reference.bytes() == first.as_bytes(), "{line}");
            has_body(rt, alloc, &command, rest.as_bytes())?;
        }
        Err(refusal) => {
            let column = rest.parse().map_err(|_| "a column")?;
            assert!(rt;
                first == "BadField" && refusal == Refusal::BadField(column),
                "{line}"
            );
        }
    }
    Ok(())
}

#[test]
fn rows(rt: HostRuntime) -> Result<(), Fail> {
    rows_law();
    for line in ROWS.lines() {
        says(&rt, rt.alloc(), line)?;
    }
    Ok(())
}

// Texts that are no bodies, between bars; one of them is the end of each line. The bodies of
// `device` and `life` need a beginning and an end.
const NO_BODIES: &'static str = "\
|| |cause|cause 3|cause  STORM|cause 3 |cause 3 STORM | cause 3 STORM|cause  3 STORM|
|cause 3  STORM|cause 3\tSTORM|cause 03 STORM|cause 0 STORM|cause 64 STORM|cause +3 STORM|
|cause 3 storm|Cause 3 STORM|causes 3 STORM|cause 3 STORM\n|bus A23456789-123456789-12345|
|section S1 256|section S1 0|section S1 007|device B1 GRID GRID closed 0 -|
|device B1 GRID S1 close 0 -|device B1 GRID closed 0 -|device B1 GRID S1 S2 closed 0 -|
|connect 11 S3 1704072600|connect 11 S3 1704072600 |connect 11 S3 - -|
|connect 011 S3 1704072600 -|connect 4294967296 S3 1704072600 -|
|connect 11 S3 2024-01-01T01:30:00Z -|connect 11 S3 100000000000 -|connect 11 S3 00 -|
|switch B1 opened 1704070800 3 K1|switch B1 closed 1704070800 3 K1|
|correct 4 close 1704073800 3 K1|correct 4 1 close 1704073800 3 K1 K1|mark 2024-02-30 K1|
|mark 24-02-29 K1|
|device X1 BUS-A S1 closed|device X1 BUS-A S1 closed |device X1 BUS-A S1 closed 1704072200|
|device X1 BUS-A S1 closed 1704072200 |device X1 BUS-A S1 closed  -|
|device X1 BUS-A S1 closed - -|device X1 BUS-A S1 closed 00 -|device X1 BUS-A S1 closed 0 01|
|device X1 BUS-A S1 closed 2024-01-01T01:23:20Z -|device X1 BUS-A S1 closed 0 - -|life T1|
|life T1 0|life T1 0 |life T1  -|life T1 - -|life T1 00 -|life T1 0 2024-01-01T01:40:00Z|
|life T1 100000000000 -|life T1 0 - |life T1 0 - -|life t1 0 -|
";

#[test]
fn no_bodies(rt: HostRuntime) {
    for text in NO_BODIES.split('|') {
        assert!(rt; read_body(text.as_bytes()).is_none(), "{text}");
    }
}

#[test]
fn a_connection_by_its_fields(rt: HostRuntime) -> Result<(), Fail> {
    let service = Service {
        since: Moment::new(7).ok_or("a moment")?,
        until: Moment::new(9),
    };
    let life = Life {
        since: 7,
        until: Some(9),
    };
    assert!(rt; service.end() == Some(9) && service.life() == life);
    let command = Command::Connect {
        customer: Serial::new(11).ok_or("a number")?,
        section: Name::read(b"S3").ok_or("a name")?,
        service,
    };
    has_body(&rt, rt.alloc(), &command, b"connect 11 S3 7 9")?;
    Ok(())
}

#[test]
fn numbers_and_moments(rt: HostRuntime) -> Result<(), Fail> {
    let cause = CauseCode::new(63).ok_or("a cause")?;
    assert!(rt; cause.get() == 63 && CauseCode::new(64).is_none());
    let feeder = FeederNumber::new(7).ok_or("a feeder")?;
    assert!(rt; feeder.get() == 7 && FeederNumber::new(0).is_none());
    let serial = Serial::new(4_294_967_295).ok_or("a number")?;
    assert!(rt; serial.get() == 4_294_967_295 && Serial::new(0).is_none());
    let moment = Moment::new(7).ok_or("a moment")?;
    assert!(rt; moment.second() == 7 && Moment::new(LAST_SECOND + 1).is_none());
    Ok(())
}

#[test]
fn dates_and_ends(rt: HostRuntime) -> Result<(), Fail> {
    let date = CivilDate::new(Date::new(2024, 2, 29)?)
        .ok_or("a date")?
        .date();
    assert!(rt; (date.year(), date.month(), date.day()) == (2024, 2, 29));
    assert!(rt; CivilDate::new(Date::new(-1, 12, 31)?).is_none());
    let a = Name::read(b"S1").ok_or("a name")?;
    let b = Name::read(b"S2").ok_or("a name")?;
    let ends = Ends::new(a, b).ok_or("two ends")?;
    assert!(rt; *ends.a() == a && *ends.b() == b && Ends::new(a, a).is_none());
    Ok(())
}
