//! Commands under references, one a line, as the rows of an import.

/// The number of commands of the outage and those after it.
pub const COMMANDS: u32 = 31;

/// The customer-seconds of the book with the first `accepted` of them.
pub fn total_of(accepted: u32) -> u64 {
    match accepted {
        0..=21 => 0,
        22 | 23 => 414_000,
        24 | 29 => 167_400,
        26 => 10_800,
        28 => 7_800,
        30 => 4_600,
        31 => 245_800,
        _ => 9_000,
    }
}

/// Two feeders of one bus with a tie between them and ten customers, and an outage. An hour after
/// the start of 2024 B1 opens. Ten minutes later W1 opens and the tie closes, which supplies S2. An
/// hour after its opening B1 closes.
///
/// After the outage: an opening that comes late, ten minutes before the breaker's, and is
/// withdrawn; then the breaker closed ten minutes earlier, and not at all. The life of a second
/// device from the bus to S1 begins 5,000 seconds after the start of 2024, and the device supplies
/// S1. The tie's life ends 1,000 seconds later, so S2 has no supply from then on.
pub const ROWS: &'static str = "\
kind,ref,f1,f2,f3,f4,f5,f6
cause,N1,3,STORM,,,,
cause,N2,4,PLANNED,,,,
bus,N3,BUS-A,,,,,
section,N4,S1,1,,,,
section,N5,S2,1,,,,
section,N6,S3,2,,,,
device,N7,I1,GRID,BUS-A,closed,,
device,N8,B1,BUS-A,S1,closed,,
device,N9,W1,S1,S2,closed,,
device,N10,B2,BUS-A,S3,closed,,
device,N11,T1,S2,S3,open,,
connect,N12,1,S1,1704067200,,,
connect,N13,2,S1,1704067200,,,
connect,N14,3,S2,1704067200,,,
connect,N15,4,S2,1704067200,,,
connect,N16,5,S2,1704067200,,,
connect,N17,6,S3,1704067200,,,
connect,N18,7,S3,1704067200,,,
connect,N19,8,S3,1704067200,,,
connect,N20,9,S3,1704067200,,,
connect,N21,10,S3,1704067200,,,
switch,N22,B1,open,1704070800,3,K1,
switch,N23,W1,open,1704071400,3,K1,
switch,N24,T1,close,1704071400,3,K1,
switch,N25,B1,close,1704074400,3,K1,
switch,LATE1,W1,open,1704070200,4,K1,
withdraw,LATE2,5,1,,,,
correct,FIX1,4,1,close,1704073800,3,K1
withdraw,FIX2,4,2,,,,
device,JOIN1,X1,BUS-A,S1,closed,1704072200,
life,LIFE1,T1,,1704073200,,,
";

/// A command after the outage, and the customer-seconds of the book with it.
#[derive(Clone, Copy)]
pub struct Last {
    pub line: &'static str,
    pub total: u64,
}

/// The breaker closed ten minutes earlier.
pub const CORRECTION: Last = Last {
    line: "correct,FIX1,4,1,close,1704073800,3,K1",
    total: 7_800,
};

/// A second device from the bus to S1, whose life begins 5,000 seconds after the start of 2024.
pub const JOINING: Last = Last {
    line: "device,JOIN1,X1,BUS-A,S1,closed,1704072200,",
    total: 4_600,
};

/// The tie's life ends 6,000 seconds after the start of 2024, and S2 has no supply from then on.
pub const LEAVING: Last = Last {
    line: "life,LIFE1,T1,,1704073200,,,",
    total: 250_200,
};
