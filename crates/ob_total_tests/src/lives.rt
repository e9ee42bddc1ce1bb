//! Tests of totals with in-service intervals (lives) of devices.
use crate::commands::FEEDER;
use crate::script::script;
use crate::totals::TIED;
use std::test::Fail;

// The breaker of the feeder's one customer, over a span from 100 up to 200.
const BREAKER: &'static str = "\
W 0
# Lives wholly before the span and wholly after it.
life,L1,B1,,100,,, => W 100
life,L1,B1,0,50,,, => W 100
life,L1,B1,200,,,, => W 100
life,L1,B1,200,300,,, => W 100
# The first second alone, and the last one.
life,L1,B1,,101,,, => W 99
life,L1,B1,100,101,,, => W 99
life,L1,B1,199,,,, => W 99
life,L1,B1,199,200,,, => W 99
life,L1,B1,100,200,,, => W 0
life,L1,B1,,199,,, => W 1
life,L1,B1,101,,,, => W 1
life,L1,B1,130,150,,, => W 80
# The last row of a device's life holds.
life,L1,B1,130,150,,,;life,L2,B1,120,,,, => W 20
life,L1,B1,130,150,,,;life,L2,B1,,,,, => W 0
# Another breaker up to 150, or a second less; this one from 150 on.
device,D1,B2,GRID,S1,closed,,150;life,L1,B1,150,,,, => W 0
device,D1,B2,GRID,S1,closed,,149;life,L1,B1,150,,,, => W 1
device,D1,B2,GRID,S1,closed,10,50;life,L1,B1,150,,,, => W 50
device,D1,B2,GRID,S1,open,,150;life,L1,B1,150,,,, => W 50
# The two devices of the one way: it stands from 120 up to 180.
life,L1,I1,120,,,,;life,L2,B1,,180,,, => W 40
# A device that is made with a life, and gets another.
device,D1,B2,GRID,S1,closed,,150;life,L1,B1,150,,,,;life,L2,B2,,140,,, => W 10
";

// Lines whose lives end and ties whose lives begin, with two customers past B2 and one before it.
const LINES: &'static str = "\
life,L1,B2,,40,,, => W 120
life,L1,B1,,40,,, => W 180
# A tie that joins 30 seconds later, before it, in its second, and leaves again.
life,L1,B2,,40,,,;device,D1,T2,BUS-A,S2,closed,70, => W 60
life,L1,B2,,40,,,;device,D1,T2,BUS-A,S2,closed,30, => W 0
life,L1,B2,,40,,,;device,D1,T2,BUS-A,S2,closed,40, => W 0
life,L1,B2,,40,,,;device,D1,T2,BUS-A,S2,closed,40,90 => W 20
# An open tie that is closed at 70, and one that is closed at 60 and joins at 70.
life,L1,B2,,40,,,;device,D1,T2,BUS-A,S2,open,10,;switch,E1,T2,close,70,3,K1, => W 60
life,L1,B2,,40,,,;device,D1,T2,BUS-A,S2,open,70,;switch,E1,T2,close,60,3,K1, => W 60
# The tie that stands from the first second on is closed at 50, and taken down at 80.
life,L1,B2,,40,,,;switch,E1,T1,close,50,3,K1,;life,L2,T1,,80,,, => W 60
# With the tie, S1 is supplied over S2 from 60 up to 90.
life,L1,B1,,60,,,;switch,E1,T1,close,60,3,K1,;life,L2,T1,,90,,, => W 30
";

// Entries at the bounds of a life and outside it.
const ENTRIES: &'static str = "\
# An opening in the second at which the life ends, the second before and the second after.
life,L1,B2,,40,,,;switch,E1,B2,open,40,3,K1, => W 120
life,L1,B2,,40,,,;switch,E1,B2,open,39,3,K1, => W 122
life,L1,B2,,40,,,;switch,E1,B2,open,41,3,K1, => W 120
switch,E1,B2,open,40,3,K1,;life,L1,B2,,40,,, => W 120
# A closing behind the end closes nothing.
life,L1,B2,,40,,,;switch,E1,B2,close,50,3,K1, => W 120
switch,E1,B2,open,20,3,K1,;switch,E2,B2,close,40,3,K1,;life,L1,B2,,40,,, => W 160
# What was entered before the life begins holds in it.
life,L1,B2,20,,,, => W 40
life,L1,B2,20,,,,;switch,E1,B2,open,10,3,K1, => W 200
life,L1,B2,20,,,,;switch,E1,B2,open,10,3,K1,;switch,E2,B2,close,15,3,K1, => W 40
life,L1,B2,20,,,,;switch,E1,B2,open,10,3,K1,;switch,E2,B2,close,25,3,K1, => W 50
# An opening in the second at which the life begins, and later.
life,L1,B2,20,,,,;switch,E1,B2,open,20,3,K1, => W 200
life,L1,B2,20,,,,;switch,E1,B2,open,30,3,K1, => W 180
# A network row behind switchings.
switch,E1,B2,open,30,3,K1,;device,D1,T2,BUS-A,S2,closed,, => W 0
switch,E1,B2,open,30,3,K1,;device,D1,T2,BUS-A,S2,closed,60, => W 60
switch,E1,B2,open,30,3,K1,;section,D1,S3,1,,,,;device,D2,B3,S2,S3,closed,,;connect,C4,4,S3,0,,, => W 210
# A service that begins after the line is taken down, and one that ends before.
life,L1,B2,,40,,,;connect,C4,4,S2,90,,, => W 130
life,L1,B2,,40,,,;connect,C4,4,S2,0,40,, => W 120
life,L1,B2,,40,,,;connect,C4,4,S2,0,41,, => W 121
";

// Bases and scripts.
const SCRIPTS: &'static [(&'static str, &'static str)] = &[
    (FEEDER, BREAKER),
    (TIED, LINES),
    (TIED, ENTRIES),
];

#[test]
fn lives_of_devices(rt: HostRuntime) -> Result<(), Fail> {
    for (base, lines) in SCRIPTS {
        script(&rt, rt.alloc(), base, lines)?;
    }
    Ok(())
}
