//! An import into a book whose store may stop, row by row or as a whole, and the rows that are then
//! kept.
use crate::office::Office;
use crate::sending::{BEFORE, failed, take_rows};
use crate::tasks::Kept;
use ob_net::Stop;
use std::alloc::Global;
use std::process::Abort;

// The breaker closed ten minutes earlier, the day marked, and the breaker closed when it was.
const ROWS: &'static [u8] = b"\
kind,ref,f1,f2,f3,f4,f5,f6
correct,FIX1,4,1,close,1704073800,3,K1
mark,FIX2,2024-01-01,E1,,,,
correct,FIX3,4,2,close,1704074400,3,K1
";

/// The number of commands that the book has with all rows.
pub const IMPORTED: u32 = 28;

// The customer-seconds of the book with this many commands.
fn total_of(accepted: u32) -> u64 {
    if BEFORE < accepted && accepted < IMPORTED {
        7_800
    } else {
        9_000
    }
}

/// Loads the book and imports the rows. If the store fails, the acknowledged rows are kept, and
/// perhaps one more.
pub fn import<O: Office>(rt: &impl Abort, alloc: Global, office: &mut O) -> Kept {
    if let Err(stop) = office.loads() {
        return failed(rt, office, stop, Kept::all(BEFORE));
    }
    let found = take_rows(alloc, office, ROWS);
    let rows = found.rows;
    assert!(rt; rows <= 3);
    match found.stop {
        None => {
            assert!(rt; rows == 3);
            Kept::all(IMPORTED)
        }
        Some(stop) => failed(rt, office, stop, Kept::or_one_more(BEFORE + rows)),
    }
}

/// Loads the book, which has the acknowledged rows and at most one more. Then it takes the rest of
/// the rows.
pub fn holds_rows<O: Office>(rt: &impl Abort, alloc: Global, office: &mut O, kept: Kept) -> Kept {
    assert!(rt; office.loads().is_ok());
    let (accepted, total) = office.shows().unwrap_or((0, 0));
    assert!(rt; kept.allows(accepted));
    assert!(rt; total == total_of(accepted));
    let found = take_rows(alloc, office, ROWS);
    assert!(rt; found.rows == 3 && found.stop == None);
    assert!(rt; office.shows() == Some((IMPORTED, total_of(IMPORTED))));
    Kept::all(accepted)
}

/// Loads the book and imports all rows or none. If the store fails, the book has all of them or
/// none.
pub fn import_all<O: Office>(rt: &impl Abort, alloc: Global, office: &mut O) -> Kept {
    if let Err(stop) = office.loads() {
        return failed(rt, office, stop, Kept::all(BEFORE));
    }
    match office.takes_whole(alloc, ROWS) {
        Ok(report) => {
            assert!(rt; report.added == 3 && report.again == 0 && report.stopped == None);
            Kept::all(IMPORTED)
        }
        Err(found) => {
            let kept = Kept {
                least: BEFORE,
                most: IMPORTED,
            };
            failed(rt, office, Stop::Fault(found.fault), kept)
        }
    }
}

/// Loads the book, which has all rows or none, and nothing in between. Then it takes them.
pub fn holds_all<O: Office>(rt: &impl Abort, alloc: Global, office: &mut O, kept: Kept) -> Kept {
    assert!(rt; office.loads().is_ok());
    let (accepted, total) = office.shows().unwrap_or((0, 0));
    assert!(rt; kept.allows(accepted));
    assert!(rt; accepted == BEFORE || accepted == IMPORTED);
    assert!(rt; total == total_of(accepted));
    let found = office.takes_whole(alloc, ROWS);
    assert!(rt; found.is_ok());
    assert!(rt; office.shows() == Some((IMPORTED, total_of(IMPORTED))));
    Kept::all(accepted)
}
