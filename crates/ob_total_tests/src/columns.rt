//! Tests of spans, of rows as a whole, and of the bad column of a row.
use crate::script::script;
use std::test::Fail;

const SPANS: &'static str = "\
span,A0,0,10000,,,, => W 0
span,A0,0,100,,,,;section,A1,S1,1,,,,;connect,C1,1,S1,0,,, => W 100
span,A0,5,5,,,, => refused 1 BadField 4 row 1
span,A0,5,4,,,, => refused 1 BadField 4 row 1
span,A0,7,33554439,,,, => refused 1 BadField 4 row 1
# One second shorter is a span, and the next row is read.
span,A0,7,33554438,,,,;bus,A1,,,,,, => refused 1 BadField 3 row 2
span,A0,99999999998,99999999999,,,,;section,A1,S1,1,,,,;connect,C1,1,S1,99999999998,,, => W 1
span,A0,99999999998,99999999999,,,,;section,A1,S1,1,,,,;connect,C1,1,S1,99999999999,,, => W 0
span,A0,99999999999,100000000000,,,, => refused 1 BadField 4 row 1
span,A0,100000000000,1,,,, => refused 1 BadField 3 row 1
span,A0,000000000001,2,,,, => refused 1 BadField 3 row 1
span,A0,,2,,,, => refused 1 BadField 3 row 1
span,A0,1,x,,,, => refused 1 BadField 4 row 1
span,a0,1,x,,,, => refused 1 BadField 2 row 1
span,A0,1,1,9,,, => refused 1 BadField 4 row 1
span,A0,1,2,,9,,9 => refused 1 BadField 6 row 1
span,A0,1,2,,, => refused 1 BadField 0 row 1
bus,A1,BUS-A,,,,, => refused 1 BadField 1 row 1
Span,a0,x,x,,,, => refused 1 BadField 1 row 1
";

const SPAN: &'static str = "span,A0,100,200,,,,\n";

const ROWS: &'static str = "\
span,A1,100,200,,,, => refused 1 BadField 1 row 2
trip,A1,B1,,,,, => refused 1 BadField 1 row 2
Bus,A1,B1,,,,, => refused 1 BadField 1 row 2
,A1,B1,,,,, => refused 1 BadField 1 row 2
bus,A1,B1,,,, => refused 1 BadField 0 row 2
bus,A1,B1,,,,,, => refused 1 BadField 0 row 2
trip,A1,B1,,,, => refused 1 BadField 0 row 2
trip,A1,B1,,,,,, => refused 1 BadField 0 row 2
bus,a1,B1,,,,, => refused 1 BadField 2 row 2
bus,,B1,,,,, => refused 1 BadField 2 row 2
bus,ABCDEFGHIJKLMNOPQRSTUVWXYZ0123456789-_AB,B1,,,,, => W 0
bus,ABCDEFGHIJKLMNOPQRSTUVWXYZ0123456789-_ABC,B1,,,,, => refused 1 BadField 2 row 2
# References are not compared.
bus,A0,B1,,,,,;bus,A0,B2,,,,, => W 0
# The leftmost bad column counts.
trip,a1,b1,x,x,x,x,x => refused 1 BadField 1 row 2
bus,a1,b1,x,x,x,x,x => refused 1 BadField 2 row 2
bus,A1,b1,x,x,x,x,x => refused 1 BadField 3 row 2
bus,A1,B1,,x,,x,x => refused 1 BadField 5 row 2
connect,A1,1,S1,x,x,x, => refused 1 BadField 5 row 2
# A quote that is left open goes on to the end of the text.
bus,A1,B1,,,,,\"x => refused 1 BadField 8 row 2
bus,A1,\"B1,,,,,;bus,A2,B2,,,,, => refused 1 BadField 0 row 2
";

const CAUSES_AND_NODES: &'static str = "\
cause,A1,0,STORM,,,, => refused 1 BadField 3 row 2
cause,A1,64,STORM,,,, => refused 1 BadField 3 row 2
cause,A1,007,STORM,,,, => refused 1 BadField 3 row 2
cause,A1,,STORM,,,, => refused 1 BadField 3 row 2
cause,A1,7,,,,, => refused 1 BadField 4 row 2
cause,A1,7,ABCDEFGHIJKLMNOPQRSTUVWXY,,,, => refused 1 BadField 4 row 2
cause,A1,7,STORM,x,,, => refused 1 BadField 5 row 2
cause,A1,7,STORM,,x,, => refused 1 BadField 6 row 2
cause,A1,7,STORM,,,x, => refused 1 BadField 7 row 2
cause,A1,7,STORM,,,,x => refused 1 BadField 8 row 2
bus,A1,,,,,, => refused 1 BadField 3 row 2
bus,A1,ABCDEFGHIJKLMNOPQRSTUVWXY,,,,, => refused 1 BadField 3 row 2
bus,A1,B1,x,,,, => refused 1 BadField 4 row 2
bus,A1,B1,,x,,, => refused 1 BadField 5 row 2
bus,A1,B1,,,x,, => refused 1 BadField 6 row 2
bus,A1,B1,,,,x, => refused 1 BadField 7 row 2
bus,A1,B1,,,,,x => refused 1 BadField 8 row 2
section,A1,S 1,1,,,, => refused 1 BadField 3 row 2
section,A1,SÜ,1,,,, => refused 1 BadField 3 row 2
section,A1,S1,0,,,, => refused 1 BadField 4 row 2
section,A1,S1,256,,,, => refused 1 BadField 4 row 2
section,A1,S1,0001,,,, => refused 1 BadField 4 row 2
section,A1,S1,-1,,,, => refused 1 BadField 4 row 2
section,A1,S1,,,,, => refused 1 BadField 4 row 2
section,A1,S1,1,x,,, => refused 1 BadField 5 row 2
section,A1,S1,1,,x,, => refused 1 BadField 6 row 2
section,A1,S1,1,,,x, => refused 1 BadField 7 row 2
section,A1,S1,1,,,,x => refused 1 BadField 8 row 2
";

const DEVICES_AND_CUSTOMERS: &'static str = "\
device,A1,b1,GRID,S1,closed,, => refused 1 BadField 3 row 2
device,A1,B1,grid,S1,closed,, => refused 1 BadField 4 row 2
device,A1,B1,GRID,s1,closed,, => refused 1 BadField 5 row 2
device,A1,B1,GRID,,closed,, => refused 1 BadField 5 row 2
device,A1,B1,S1,S1,closed,, => refused 1 BadField 5 row 2
device,A1,B1,S1,S1,close,, => refused 1 BadField 5 row 2
device,A1,B1,s1,s1,closed,, => refused 1 BadField 4 row 2
device,A1,B1,GRID,S1,close,, => refused 1 BadField 6 row 2
device,A1,B1,GRID,S1,,, => refused 1 BadField 6 row 2
device,A1,B1,GRID,S1,open,x, => refused 1 BadField 7 row 2
device,A1,B1,GRID,S1,open,,x => refused 1 BadField 8 row 2
device,A1,B1,GRID,S1,open,x,x => refused 1 BadField 7 row 2
device,A1,B1,GRID,S1,open,000000000001, => refused 1 BadField 7 row 2
device,A1,B1,GRID,S1,open,100000000000, => refused 1 BadField 7 row 2
device,A1,B1,GRID,S1,open,-, => refused 1 BadField 7 row 2
device,A1,B1,GRID,S1,open,,000000000001 => refused 1 BadField 8 row 2
device,A1,B1,GRID,S1,open,,100000000000 => refused 1 BadField 8 row 2
device,A1,B1,GRID,S1,open,5,- => refused 1 BadField 8 row 2
device,A1,B1,S1,S1,open,x,x => refused 1 BadField 5 row 2
device,A1,B1,GRID,S1,x,x, => refused 1 BadField 6 row 2
connect,A1,0,S1,0,,, => refused 1 BadField 3 row 2
connect,A1,4294967296,S1,0,,, => refused 1 BadField 3 row 2
connect,A1,00000000001,S1,0,,, => refused 1 BadField 3 row 2
connect,A1,,S1,0,,, => refused 1 BadField 3 row 2
connect,A1,1,,0,,, => refused 1 BadField 4 row 2
connect,A1,1,S1,,,, => refused 1 BadField 5 row 2
connect,A1,1,S1,000000000001,,, => refused 1 BadField 5 row 2
connect,A1,1,S1,+1,,, => refused 1 BadField 5 row 2
connect,A1,1,S1,0,x,, => refused 1 BadField 6 row 2
connect,A1,1,S1,0,100000000000,, => refused 1 BadField 6 row 2
connect,A1,1,S1,0,,x, => refused 1 BadField 7 row 2
connect,A1,1,S1,0,,,x => refused 1 BadField 8 row 2
switch,A1,b1,open,150,3,K1, => refused 1 BadField 3 row 2
switch,A1,B1,closed,150,3,K1, => refused 1 BadField 4 row 2
switch,A1,B1,,150,3,K1, => refused 1 BadField 4 row 2
switch,A1,B1,open,,3,K1, => refused 1 BadField 5 row 2
switch,A1,B1,open,1e2,3,K1, => refused 1 BadField 5 row 2
switch,A1,B1,open,150,0,K1, => refused 1 BadField 6 row 2
switch,A1,B1,open,150,64,K1, => refused 1 BadField 6 row 2
switch,A1,B1,open,150,,K1, => refused 1 BadField 6 row 2
switch,A1,B1,open,150,3,, => refused 1 BadField 7 row 2
switch,A1,B1,open,150,3,k1, => refused 1 BadField 7 row 2
switch,A1,B1,open,150,3,ABCDEFGHIJKLMNOPQ, => refused 1 BadField 7 row 2
switch,A1,B1,open,150,3,K1,x => refused 1 BadField 8 row 2
";

const LIVES: &'static str = "\
life,A1,b1,,,,, => refused 1 BadField 3 row 2
life,A1,,,,,, => refused 1 BadField 3 row 2
life,A1,b1,x,x,,, => refused 1 BadField 3 row 2
life,A1,B1,x,,,, => refused 1 BadField 4 row 2
life,A1,B1,-,,,, => refused 1 BadField 4 row 2
life,A1,B1,000000000001,,,, => refused 1 BadField 4 row 2
life,A1,B1,100000000000,,,, => refused 1 BadField 4 row 2
life,A1,B1,x,x,x,, => refused 1 BadField 4 row 2
life,A1,B1,,x,,, => refused 1 BadField 5 row 2
life,A1,B1,5,-,,, => refused 1 BadField 5 row 2
life,A1,B1,,000000000001,,, => refused 1 BadField 5 row 2
life,A1,B1,,100000000000,,, => refused 1 BadField 5 row 2
life,A1,B1,5,5,x,, => refused 1 BadField 6 row 2
life,A1,B1,,,,x, => refused 1 BadField 7 row 2
life,A1,B1,,,,,x => refused 1 BadField 8 row 2
lives,A1,B1,,,,, => refused 1 BadField 1 row 2
# Fields that can be read: the name comes next, and then the order of the seconds.
life,A1,B1,,,,, => refused 2 UnknownName row 2
life,A1,B1,5,4,,, => refused 2 UnknownName row 2
device,A1,B1,GRID,S1,open,5,4 => refused 2 UnknownName row 2
section,A1,S1,1,,,,;device,A2,B1,GRID,S1,open,00000000005,99999999999;life,A3,B1,00000000005,99999999999,,, => W 0
";

// Bases and scripts.
const SCRIPTS: &'static [(&'static str, &'static str)] = &[
    ("", SPANS),
    (SPAN, ROWS),
    (SPAN, CAUSES_AND_NODES),
    (SPAN, DEVICES_AND_CUSTOMERS),
    (SPAN, LIVES),
];

#[test]
fn spans_rows_and_columns(rt: HostRuntime) -> Result<(), Fail> {
    for (base, lines) in SCRIPTS {
        script(&rt, rt.alloc(), base, lines)?;
    }
    Ok(())
}
