//! Tests of whole texts: a first example, and the forms that a text may have.
use crate::script::says;
use std::test::Fail;

/// The text of the first example, whose total is 9,000.
pub const FIRST_RUN: &'static str = "\
kind,ref,f1,f2,f3,f4,f5,f6
span,A0,0,10000,,,,
bus,A1,BUS-A,,,,,
section,A2,S1,1,,,,
section,A3,S2,1,,,,
section,A4,S3,2,,,,
device,A5,I1,GRID,BUS-A,closed,,
device,A6,B1,BUS-A,S1,closed,,
device,A7,W1,S1,S2,closed,,
device,A8,B2,BUS-A,S3,closed,,
device,A9,T1,S2,S3,open,,
connect,C1,1,S1,0,,,
connect,C2,2,S1,0,,,
connect,C3,3,S2,0,,,
connect,C4,4,S2,0,,,
connect,C5,5,S2,0,,,
connect,C6,6,S3,0,,,
connect,C7,7,S3,0,,,
connect,C8,8,S3,0,,,
connect,C9,9,S3,0,,,
connect,C10,10,S3,0,,,
switch,E1,B1,open,3600,3,K1,
switch,E2,W1,open,4200,3,K1,
switch,E3,T1,close,4200,3,K1,
switch,E4,B1,close,7200,3,K1,
";

// Rows after the first example. The tie's life ends at 6000, so three customers lose supply for
// 4,000 seconds; then the life is set without an end. The life of another device to the first
// section begins at 5000: its two customers have supply 2,200 seconds earlier. A switching behind
// the span.
const AFTER: &'static [(&'static str, &'static str)] = &[
    ("", "W 9000"),
    ("life,L1,T1,,6000,,,\n", "W 21000"),
    ("life,L1,T1,,6000,,,\nlife,L2,T1,,,,,\n", "W 9000"),
    ("device,N1,X1,BUS-A,S1,closed,5000,\n", "W 4600"),
    (
        "switch,E5,B1,open,10000,3,K1,\n",
        "refused 5 OutOfPeriod row 25",
    ),
];

#[test]
fn first_run_and_more(rt: HostRuntime) -> Result<(), Fail> {
    for (rows, wanted) in AFTER {
        let mut text = String::from_str(rt.alloc(), FIRST_RUN)?;
        text.push_str(rows)?;
        says(&rt, rt.alloc(), text.as_bytes(), wanted)?;
    }
    Ok(())
}

// The forms of rows and headers are those of `rows.rt`. In the last two a quote that is left open
// ends with the text, and a name that isn't UTF-8 is no name.
const FORMS: &'static [(&'static [u8], &'static str)] = &[
    (b"", "refused 1 BadField 0 row 0"),
    (b"span,A0,0,10000,,,,\n", "refused 1 BadField 0 row 0"),
    (b"kind,ref,f1,f2,f3,f4,f5,f6", "refused 1 BadField 0 row 0"),
    (
        b"kind,ref,f1,f2,f3,f4,f5,f6\n\n",
        "refused 1 BadField 0 row 0",
    ),
    (
        b"\xEF\xBB\xBFkind,ref,f1,f2,f3,f4,f5,f6\nspan,A0,0,10,,,,",
        "W 0",
    ),
    (
        b"\n\r\nkind,ref,f1,f2,f3,f4,f5,f6\n\n\nspan,A0,0,10,,,,\n\r\r\nbus,A1,bus,,,,,\n",
        "refused 1 BadField 3 row 2",
    ),
    (
        b"kind,ref,f1,f2,f3,f4,f5,f6\nspan,A0,0,10,,,,\n\"\"\n",
        "refused 1 BadField 0 row 2",
    ),
    (
        b"kind,ref,f1,f2,f3,f4,f5,f6\nspan,A0,100,200,,,,\nbus,A1,B1,,,,,\"",
        "W 0",
    ),
    (
        b"kind,ref,f1,f2,f3,f4,f5,f6\nspan,A0,100,200,,,,\nbus,A1,\xFF\xFE,,,,,\n",
        "refused 1 BadField 3 row 2",
    ),
];

#[test]
fn forms_of_texts(rt: HostRuntime) -> Result<(), Fail> {
    for (text, wanted) in FORMS {
        says(&rt, rt.alloc(), text, wanted)?;
    }
    Ok(())
}
