//! Tests of commands on a network without an entry, and on one with an entry.
use crate::script::script;
use std::test::Fail;

/// A section that is supplied over a bus, and its one customer.
pub const FEEDER: &'static str = "\
span,A0,100,200,,,,
bus,A1,BUS-A,,,,,
section,A2,S1,1,,,,
device,A3,I1,GRID,BUS-A,closed,,
device,A4,B1,BUS-A,S1,closed,,
connect,C1,1,S1,0,,,
";

const OPEN: &'static str = "\
W 0
cause,D1,3,STORM,,,,;cause,D1,3,STORM,,,,;cause,D2,3,ICE,,,, => W 0
device,X,B2,NONE,S1,closed,, => refused 2 UnknownName row 7
device,X,B2,S1,NONE,closed,, => refused 2 UnknownName row 7
device,X,B2,S1,B1,closed,, => refused 2 UnknownName row 7
device,X,B1,S1,NONE,closed,, => refused 2 UnknownName row 7
device,X,B1,GRID,S1,open,, => refused 3 NameTaken row 7
device,X,B2,GRID,S1,open,7,8 => W 0
device,X,B2,GRID,S1,open,7,7 => refused 18 BadLife row 7
device,X,B2,GRID,S1,open,7,6 => refused 18 BadLife row 7
device,X,B2,GRID,S1,open,,0 => refused 18 BadLife row 7
device,X,B1,GRID,S1,open,7,7 => refused 3 NameTaken row 7
device,X,B1,NONE,S1,open,7,7 => refused 2 UnknownName row 7
life,X,NONE,,,,, => refused 2 UnknownName row 7
life,X,S1,,,,, => refused 2 UnknownName row 7
life,X,NONE,7,7,,, => refused 2 UnknownName row 7
life,X,B1,7,7,,, => refused 18 BadLife row 7
life,X,B1,8,7,,, => refused 18 BadLife row 7
life,X,B1,,0,,, => refused 18 BadLife row 7
life,X,B1,,1,,, => W 100
life,X,B1,99999999998,99999999999,,, => W 100
life,X,B1,,,,, => W 0
# Nodes and devices have names of their own.
device,X,S1,GRID,S1,open,,;bus,X,B1,,,,, => W 0
bus,X,BUS-A,,,,, => refused 3 NameTaken row 7
bus,X,S1,,,,, => refused 3 NameTaken row 7
bus,X,GRID,,,,, => refused 3 NameTaken row 7
section,X,S1,2,,,, => refused 3 NameTaken row 7
section,X,BUS-A,2,,,, => refused 3 NameTaken row 7
section,X,GRID,2,,,, => refused 3 NameTaken row 7
connect,X,2,NONE,0,,, => refused 2 UnknownName row 7
connect,X,2,BUS-A,0,,, => refused 2 UnknownName row 7
connect,X,2,GRID,0,,, => refused 2 UnknownName row 7
connect,X,2,B1,0,,, => refused 2 UnknownName row 7
connect,X,1,NONE,5,5,, => refused 2 UnknownName row 7
connect,X,1,S1,0,,, => refused 3 NameTaken row 7
connect,X,0000000001,S1,0,,, => refused 3 NameTaken row 7
connect,X,1,S1,5,5,, => refused 3 NameTaken row 7
connect,X,2,S1,5,5,, => refused 10 BadService row 7
connect,X,2,S1,5,4,, => refused 10 BadService row 7
connect,X,2,S1,5,6,,;connect,X,4294967295,S1,5,,, => W 0
switch,X,NONE,open,150,3,K1, => refused 2 UnknownName row 7
switch,X,S1,open,150,3,K1, => refused 2 UnknownName row 7
switch,X,NONE,open,200,3,K1, => refused 2 UnknownName row 7
switch,X,B1,open,200,3,K1, => refused 5 OutOfPeriod row 7
switch,X,B1,open,99,3,K1, => refused 5 OutOfPeriod row 7
switch,X,B1,open,99999999999,3,K1, => refused 5 OutOfPeriod row 7
switch,X,B1,open,199,3,K1, => W 1
switch,X,B1,open,100,3,ABCDEFGHIJKLMNOP, => W 100
# The first refusal of a text counts.
bus,X,S1,,,,,;trip,X,,,,,, => refused 3 NameTaken row 7
";

// The same with an opening in the switching log.
const OPENED: &'static str = "\
span,A0,100,200,,,,
bus,A1,BUS-A,,,,,
section,A2,S1,1,,,,
device,A3,I1,GRID,BUS-A,closed,,
device,A4,B1,BUS-A,S1,closed,,
connect,C1,1,S1,0,,,
switch,E1,B1,open,150,3,K1,
";

// The network may change after entries.
const ENTERED: &'static str = "\
W 50
bus,X,BUS-B,,,,, => W 50
section,X,S2,1,,,, => W 50
# Another way to S1.
device,X,B2,GRID,S1,closed,, => W 0
device,X,B2,GRID,S1,open,, => W 50
# A section that no device joins, and one that a device joins, which opens at 190.
section,X,S2,1,,,,;connect,X,2,S2,0,,, => W 150
section,X,S2,1,,,,;device,X,B2,BUS-A,S2,closed,,;connect,X,2,S2,0,,, => W 50
section,X,S2,1,,,,;device,X,B2,BUS-A,S2,closed,,;connect,X,2,S2,0,,,;switch,X,B2,open,190,3,K1, => W 60
bus,X,BUS-A,,,,, => refused 3 NameTaken row 8
section,X,S1,1,,,, => refused 3 NameTaken row 8
device,X,B1,GRID,S1,closed,, => refused 3 NameTaken row 8
device,X,B2,GRID,NONE,closed,, => refused 2 UnknownName row 8
device,X,B2,GRID,S1,closed,7,7 => refused 18 BadLife row 8
section,X,S1,0,,,, => refused 1 BadField 4 row 8
device,X,B2,S1,S1,closed,, => refused 1 BadField 5 row 8
cause,X,3,STORM,,,, => W 50
connect,X,2,S1,0,,, => W 100
connect,X,1,S1,0,,, => refused 3 NameTaken row 8
switch,X,B1,close,160,3,K1, => W 10
# B1 is alive from 120 on, and open from 150 on.
life,X,B1,120,,,, => W 70
life,X,B1,,160,,, => W 50
life,X,B1,,140,,, => W 60
life,X,B1,120,120,,, => refused 18 BadLife row 8
";

// Bases and scripts.
const SCRIPTS: &'static [(&'static str, &'static str)] = &[(FEEDER, OPEN), (OPENED, ENTERED)];

#[test]
fn commands_of_a_network(rt: HostRuntime) -> Result<(), Fail> {
    for (base, lines) in SCRIPTS {
        script(&rt, rt.alloc(), base, lines)?;
    }
    Ok(())
}
