//! Reads the heading and the commands in the tables.
ghost use Rattle.std.specs.Prelude.{◌≤◌, length, IfOk};
ghost use Rattle.ob_store.specs.Finding.{Finds, HasNoBookIn, IsNamed};

use ob_base::{Refusal, Stop};
use ob_sql_read::{Filed, Heading, read_commands, read_heading};
use ob_sql_rows::Version;
use sqlite::{Alter, Connection};
use std::alloc::Global;

/// The refusal of tables that are those of no book.
pub(crate) const BAD_BOOK: Stop = Stop::Refused(Refusal::BadBook);

/// The content that identifies a book: the texts of its period, and its commands under references.
#[derive(Drop)]
pub(crate) struct Named {
    pub(crate) heading: Heading,
    pub(crate) commands: Vec<Filed>,
    /// Whether the commands are numbered from 1 without gaps.
    pub(crate) counted: bool,
}

/// Reads the heading and the commands of a version.
pub(crate) fn read_named<S: Alter>(
    alloc: Global,
    conn: &mut Connection<S>,
    version: Version,
) -> Result<Named, Stop>
    ensures few { IfOk result (λ named. length named.commands.items ≤ 1_000_000) }
    ensures finds { Finds S.Store version (IsNamed version) (HasNoBookIn version) conn.old conn.new
        result }
{
    let heading = match read_heading(alloc, conn) {
        Ok(Some(heading)) => heading,
        Ok(None) => return Err(BAD_BOOK),
        Err(stop) => return Err(stop),
    };
    match read_commands(alloc, conn, version) {
        Ok(Some(read)) => Ok(Named {
            heading,
            commands: read.commands,
            counted: read.counted,
        }),
        Ok(None) => Err(BAD_BOOK),
        Err(stop) => Err(stop),
    }
}
