//! Switching operations in commands.
use crate::{CauseCode, Moment};
use ob_base::{Crew, Pos};

/// A switching operation as an entry of the switching log records it. `act` is the position of the
/// device after it.
#[derive(Clone, Copy)]
pub struct Operation {
    pub act: Pos,
    pub second: Moment,
    pub cause: CauseCode,
    pub crew: Crew,
}
