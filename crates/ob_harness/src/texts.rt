//! Texts of imports, and statements that change the tables they lead to.

/// A cause, a bus, and two sections of one name.
pub const ONE_NAME_TWICE: &'static str = "\
kind,ref,f1,f2,f3,f4,f5,f6
cause,R1,3,STORM,,,,
bus,R2,BUS-A,,,,,
section,R3,S1,1,,,,
section,R4,S1,2,,,,
";

/// The same with another name for the second section.
pub const TWO_NAMES: &'static str = "\
kind,ref,f1,f2,f3,f4,f5,f6
cause,R1,3,STORM,,,,
bus,R2,BUS-A,,,,,
section,R3,S1,1,,,,
section,R4,S2,1,,,,
";

/// Two feeders of one bus with a tie between them: S1 and S2 supplied through the breaker B1 and S3
/// through B2, with two, three and five customers. An hour after the start of 2024 B1 opens. Ten
/// minutes later W1 opens and the tie closes, which supplies S2. An hour after its opening B1
/// closes.
pub const OUTAGE: &'static str = "\
kind,ref,f1,f2,f3,f4,f5,f6
cause,N1,3,STORM,,,,
cause,N2,4,PLANNED,,,,
bus,N3,BUS-A,,,,,
section,N4,S1,1,,,,
section,N5,S2,1,,,,
section,N6,S3,2,,,,
device,N7,I1,GRID,BUS-A,closed,,
device,N8,B1,BUS-A,S1,closed,,
device,N9,W1,S1,S2,closed,,
device,N10,B2,BUS-A,S3,closed,,
device,N11,T1,S2,S3,open,,
connect,N12,1,S1,1704067200,,,
connect,N13,2,S1,1704067200,,,
connect,N14,3,S2,1704067200,,,
connect,N15,4,S2,1704067200,,,
connect,N16,5,S2,1704067200,,,
connect,N17,6,S3,1704067200,,,
connect,N18,7,S3,1704067200,,,
connect,N19,8,S3,1704067200,,,
connect,N20,9,S3,1704067200,,,
connect,N21,10,S3,1704067200,,,
switch,N22,B1,open,1704070800,3,K1,
switch,N23,W1,open,1704071400,3,K1,
switch,N24,T1,close,1704071400,3,K1,
switch,N25,B1,close,1704074400,3,K1,
";

/// The breaker closed ten minutes earlier.
pub const CORRECTION: &'static str = "\
kind,ref,f1,f2,f3,f4,f5,f6
correct,FIX1,4,1,close,1704073800,3,K1
";

/// Statements that turn the tables of the outage into those of version 1: no lives, and none in the
/// bodies of the devices.
pub const TO_VERSION_1: &'static str = "\
DROP TABLE life;
UPDATE cmd SET body = 'device I1 GRID BUS-A closed' WHERE id = 7;
UPDATE cmd SET body = 'device B1 BUS-A S1 closed' WHERE id = 8;
UPDATE cmd SET body = 'device W1 S1 S2 closed' WHERE id = 9;
UPDATE cmd SET body = 'device B2 BUS-A S3 closed' WHERE id = 10;
UPDATE cmd SET body = 'device T1 S2 S3 open' WHERE id = 11;
UPDATE meta SET version = 1;
";
