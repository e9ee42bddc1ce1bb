//! Scripts of two feeders of one bus with a tie between them. A line is a reference, the body text
//! of a command, ` => `, and the answer: the command's number and the amounts it moves, or its
//! refusal.

/// S1 and S2 supplied through the breaker B1, S3 through B2, and a normally open tie T1 from S2 to
/// S3; two customers on S1, three on S2 and five on S3, from the first second of 2024 on.
pub const TWO_FEEDERS: &'static str = "\
N1 cause 3 STORM => 1
N2 cause 4 PLANNED => 2
N3 bus BUS-A => 3
N4 section S1 1 => 4
N5 section S2 1 => 5
N6 section S3 2 => 6
N7 device I1 GRID BUS-A closed 0 - => 7
N8 device B1 BUS-A S1 closed 0 - => 8
N9 device W1 S1 S2 closed 0 - => 9
N10 device B2 BUS-A S3 closed 0 - => 10
N11 device T1 S2 S3 open 0 - => 11
N12 connect 1 S1 1704067200 - => 12
N13 connect 2 S1 1704067200 - => 13
N14 connect 3 S2 1704067200 - => 14
N15 connect 4 S2 1704067200 - => 15
N16 connect 5 S2 1704067200 - => 16
N17 connect 6 S3 1704067200 - => 17
N18 connect 7 S3 1704067200 - => 18
N19 connect 8 S3 1704067200 - => 19
N20 connect 9 S3 1704067200 - => 20
N21 connect 10 S3 1704067200 - => 21
";

/// An hour after the start B1 opens. Ten minutes later W1 opens and the tie closes, which supplies
/// S2. An hour after its opening B1 closes.
pub const OUTAGE: &'static str = "\
N22 switch B1 open 1704070800 3 K1 => 22: cause 3 414000, feeder 1 414000, day 0 414000
N23 switch W1 open 1704071400 3 K1 => 23
N24 switch T1 close 1704071400 3 K1 => 24: cause 3 -246600, feeder 1 -246600, day 0 -246600
N25 switch B1 close 1704074400 3 K1 => 25: cause 3 -158400, feeder 1 -158400, day 0 -158400
";

/// After the outage: the breaker closed ten minutes earlier, sent several times under one
/// reference. The same under another reference comes too late, and no other command can have the
/// reference.
pub const CORRECTED: &'static str = "\
FIX1 correct 4 1 close 1704073800 3 K1 => 26: cause 3 -1200, feeder 1 -1200, day 0 -1200
FIX1 correct 4 1 close 1704073800 3 K1 => 26: cause 3 -1200, feeder 1 -1200, day 0 -1200
FIX2 correct 4 1 close 1704073800 3 K1 => no: 7 Stale 2
FIX1 correct 4 1 close 1704073200 3 K1 => no: 11 RefConflict 26
FIX1 correct 4 1 close 1704073800 3 K1 => 26: cause 3 -1200, feeder 1 -1200, day 0 -1200
";

/// After the outage: without the tie's closing S2 has no supply until the switch W1 closes, and W1
/// stays open.
pub const WITHDRAWN: &'static str = "\
N26 withdraw 3 1 => 26: cause 3 246600, feeder 1 246600, day 0 246600
N27 withdraw 3 2 => no: 8 Withdrawn
N26 withdraw 3 1 => 26: cause 3 246600, feeder 1 246600, day 0 246600
";

/// After the outage: the tie's life ends while the tie supplies S2, which is sent twice; then the
/// life is set without an end.
pub const TIE_STAYS: &'static str = "\
N26 life T1 0 1704073200 => 26: cause 0 241200, feeder 1 241200, day 0 241200
N26 life T1 0 1704073200 => 26: cause 0 241200, feeder 1 241200, day 0 241200
N27 life T1 0 - => 27: cause 0 -241200, feeder 1 -241200, day 0 -241200
N26 life T1 0 - => no: 11 RefConflict 26
";

/// After the outage: the life of a new tie begins after the outage began, and the tie supplies S1.
pub const JOINS_IN_OUTAGE: &'static str = "\
N26 device X1 BUS-A S1 closed 1704072200 - => 26: cause 3 -4400, feeder 1 -4400, day 0 -4400
N26 device X1 BUS-A S1 closed 0 - => no: 11 RefConflict 26
";

/// After the outage: parts are added to the network, and the life of one is set again.
pub const PARTS_JOIN: &'static str = "\
N26 bus BUS-B => 26
N27 section S9 9 => 27
N28 connect 11 S9 1704067200 - => 28: cause 0 86400, feeder 9 86400, day 0 86400
N29 device X9 BUS-A S9 closed 1704070800 - => 29: cause 0 -82800, feeder 9 -82800, day 0 -82800
N30 life X9 1704070800 1704074400 => 30: cause 0 79200, feeder 9 79200, day 0 79200
";

/// After the outage: commands that are refused. Their reference stays free, and the first accepted
/// command takes it.
pub const REFUSED: &'static str = "\
N26 bus BUS-A => no: 3 NameTaken
N26 section S1 2 => no: 3 NameTaken
N26 device B2 BUS-A S9 closed 1704067210 1704067210 => no: 2 UnknownName
N26 device B2 BUS-A S3 closed 1704067210 1704067210 => no: 3 NameTaken
N26 device X1 BUS-A S3 closed 1704067210 1704067210 => no: 18 BadLife
N26 life X9 1704067210 1704067210 => no: 2 UnknownName
N26 life B2 1704067210 1704067210 => no: 18 BadLife
N26 switch X9 open 1704070800 3 K1 => no: 2 UnknownName
N26 switch B1 open 1704070800 9 K1 => no: 15 UnknownCause
N26 switch B1 open 1704153600 3 K1 => no: 5 OutOfPeriod
N26 correct 9 1 open 1704070800 3 K1 => no: 6 UnknownEntry
N26 connect 11 S1 1704067210 1704067210 => no: 10 BadService
N26 revise 1 1704067210 1704067210 => no: 10 BadService
N26 connect 1 S1 1704067200 - => no: 3 NameTaken
N26 revise 99 1704067200 - => no: 9 UnknownCustomer
N26 unmark 2024-01-01 E1 => no: 14 NotMarked
N26 mark 2024-02-01 E1 => no: 5 OutOfPeriod
N25 mark 2024-01-01 E1 => no: 11 RefConflict 25
N26 mark 2024-01-01 E1 => 26
N27 mark 2024-01-01 E2 => no: 13 MarkedAlready
N27 unmark 2024-01-01 E2 => 27
N26 mark 2024-01-01 E1 => 26
N22 switch B1 open 1704070800 3 K1 => 22: cause 3 414000, feeder 1 414000, day 0 414000
";
