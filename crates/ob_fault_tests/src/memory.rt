//! Checks of the book after a call that was refused memory.
use crate::office::{Office, Views};
use crate::scripts::total_of;
use crate::sending::{STORE, is_without_book};
use crate::tasks::Kept;
use ob_net::{Fault, Stop};
use std::process::Abort;

/// Memory was refused.
pub const NO_MEMORY: Stop = Stop::Fault(Fault::OutOfMemory);

/// Answers whether the book has a permitted number of the commands, and their customer-seconds.
pub fn holds<O: Office>(office: &O, kept: Kept) -> bool {
    match office.shows() {
        Some((accepted, total)) => kept.allows(accepted) && total == total_of(accepted),
        None => false,
    }
}

/// Loads the book. If that is refused memory, nothing has changed, and the book is loaded again.
pub fn load<O: Office>(rt: &impl Abort, office: &mut O) -> Result<(), Stop> {
    let before = office.views();
    let found = office.loads();
    if found != Err(NO_MEMORY) {
        return found;
    }
    assert!(rt; office.views() == before);
    office.loads()
}

// Checks that the book and its tables are as they were.
fn is_as_before<O: Office>(rt: &impl Abort, office: &mut O, before: Option<Views>) {
    assert!(rt; office.views() == before);
    assert!(rt; office.audits() == Ok(true));
    assert!(rt; office.loads() == Ok(()));
    assert!(rt; office.views() == before);
}

// Checks that there is no book until it is loaded, and that it then has what is kept. False if it
// can't be read over these files.
fn is_loaded_again<O: Office>(rt: &impl Abort, office: &mut O, kept: Kept) -> bool {
    assert!(rt; is_without_book(office));
    let found = office.loads();
    if found == Err(STORE) {
        assert!(rt; is_without_book(office));
        return false;
    }
    assert!(rt; found == Ok(()));
    assert!(rt; holds(office, kept));
    true
}

/// Checks the book after a call that was refused memory: it has the least that is kept. If the
/// store failed because of that, the book has to be loaded, and then has what is kept. False if it
/// can't be read over these files.
pub fn goes_on<O: Office>(rt: &impl Abort, office: &mut O, stop: Stop, kept: Kept) -> bool {
    if stop == STORE {
        return is_loaded_again(rt, office, kept);
    }
    assert!(rt; stop == NO_MEMORY);
    assert!(rt; holds(office, Kept::all(kept.least)));
    let before = office.views();
    is_as_before(rt, office, before);
    true
}
