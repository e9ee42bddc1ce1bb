//! Tests of totals of switching and of service.
use crate::script::script;
use std::test::Fail;

/// Two sections in a row, with one customer and two, and a tie from the bus to the second section.
pub const TIED: &'static str = "\
span,A0,0,100,,,,
bus,A1,BUS-A,,,,,
section,A2,S1,1,,,,
section,A3,S2,1,,,,
device,A4,I1,GRID,BUS-A,closed,,
device,A5,B1,BUS-A,S1,closed,,
device,A6,B2,S2,S1,closed,,
device,A7,T1,BUS-A,S2,open,,
connect,C1,1,S1,0,,,
connect,C2,2,S2,0,,,
connect,C3,3,S2,0,,,
";

const SWITCHING: &'static str = "\
W 0
# An opening undone in its second, and one that stands: two customers for 50 seconds.
switch,E1,B2,open,50,3,K1,;switch,E2,B2,close,50,3,K1, => W 0
switch,E1,B2,close,50,3,K1,;switch,E2,B2,open,50,3,K1, => W 100
# Three customers from the first second on, and at the last second alone.
switch,E1,B1,open,0,3,K1, => W 300
switch,E1,I1,open,99,3,K1, => W 3
# Two customers twice, for 10 seconds and for 5.
switch,E1,B2,open,10,3,K1,;switch,E2,B2,close,20,3,K1,;switch,E3,B2,open,30,3,K1,;switch,E4,B2,close,35,3,K1, => W 30
# A tie that closes before the opening, in its second, and 5 seconds after it.
switch,E1,T1,close,10,3,K1,;switch,E2,B2,open,20,3,K1, => W 0
switch,E1,B2,open,20,3,K1,;switch,E2,T1,close,20,3,K1, => W 0
switch,E1,B2,open,20,3,K1,;switch,E2,T1,close,25,3,K1, => W 10
# One of two ways from the bus opens, then the other: three customers for 40 seconds.
switch,E1,T1,close,10,3,K1,;switch,E2,B1,open,20,3,K1,;switch,E3,T1,open,60,3,K1, => W 120
# With the tie closed, S1 alone loses both of its devices: 70 seconds.
switch,E1,T1,close,10,3,K1,;switch,E2,B2,open,20,3,K1,;switch,E3,B1,open,30,3,K1, => W 70
# A second opening of an open device changes nothing: two customers for 20 seconds.
switch,E1,B2,open,10,3,K1,;switch,E2,B2,open,20,3,K1,;switch,E3,B2,close,30,3,K1, => W 40
# S1 from 10 to 30, S2 from 10 to 50.
switch,E1,B1,open,10,3,K1,;switch,E2,B2,open,20,3,K1,;switch,E3,B1,close,30,3,K1,;switch,E4,B2,close,50,3,K1, => W 100
# The same entries, given out of order.
switch,E4,B2,close,50,3,K1,;switch,E2,B2,open,20,3,K1,;switch,E3,B1,close,30,3,K1,;switch,E1,B1,open,10,3,K1, => W 100
switch,E2,B2,close,20,3,K1,;switch,E1,B2,open,10,3,K1, => W 20
# Two parallel devices: one opens, at 30 the other too.
device,A8,P1,S1,S2,closed,,;switch,E1,B2,open,10,3,K1, => W 0
device,A8,P1,S1,S2,closed,,;switch,E1,B2,open,10,3,K1,;switch,E2,P1,open,30,3,K1, => W 140
";

// The same with S2 without supply from 20 to 60: 80 customer-seconds for its two customers.
const OUTAGE: &'static str = "\
span,A0,0,100,,,,
bus,A1,BUS-A,,,,,
section,A2,S1,1,,,,
section,A3,S2,1,,,,
device,A4,I1,GRID,BUS-A,closed,,
device,A5,B1,BUS-A,S1,closed,,
device,A6,B2,S2,S1,closed,,
device,A7,T1,BUS-A,S2,open,,
connect,C1,1,S1,0,,,
connect,C2,2,S2,0,,,
connect,C3,3,S2,0,,,
switch,E1,B2,open,20,3,K1,
switch,E2,B2,close,60,3,K1,
";

const SERVICE: &'static str = "\
W 80
connect,C4,4,S2,30,40,, => W 90
connect,C4,4,S2,10,25,, => W 85
connect,C4,4,S2,59,,, => W 81
connect,C4,4,S2,60,,, => W 80
connect,C4,4,S2,5,20,, => W 80
connect,C4,4,S2,5,21,, => W 81
connect,C4,4,S2,0,99999999999,, => W 120
connect,C4,4,S1,30,40,, => W 80
connect,C5,5,S2,58,,,;connect,C4,4,S2,0,22,, => W 84
";

// Bases and scripts.
const SCRIPTS: &'static [(&'static str, &'static str)] = &[(TIED, SWITCHING), (OUTAGE, SERVICE)];

#[test]
fn totals_of_switching_and_service(rt: HostRuntime) -> Result<(), Fail> {
    for (base, lines) in SCRIPTS {
        script(&rt, rt.alloc(), base, lines)?;
    }
    Ok(())
}
