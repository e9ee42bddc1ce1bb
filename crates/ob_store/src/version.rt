//! Checks the version of a book before its tables are read.
ghost use Rattle.std.specs.Prelude.{◌≡◌, ◌↔◌, map, IsTrue, OnOk};
ghost use Rattle.sqlite.specs.Held.{state};
ghost use Rattle.sqlite.specs.State.{HasCleanDisk};
ghost use Rattle.ob_base.specs.Stop.{out_of_memory};
ghost use Rattle.ob_sql_write.specs.Keeps.{KeepsIn};
ghost use Rattle.ob_sql_read.specs.Reading.{IsInputError, IsReadFault, bad_book};
ghost use Rattle.ob_sql_rows.specs.Rows.{Tables, table_name};
ghost use Rattle.ob_sql_rows.specs.declared.version.Version.{Version as AVersion};
ghost use Rattle.ob_store.specs.Differing.{NoneSo};
ghost use Rattle.ob_store.specs.Shapes.{HasShape, IsShapeOf};
ghost use Rattle.ob_store.specs.Versions.{AnyTrees, Asks, Looks, Tells};

use crate::named::BAD_BOOK;
use ob_base::{Fault, Refusal, Stop};
use ob_sql_read::has_version;
use ob_sql_rows::Table;
use sqlite::{Alter, Connection, Error, ErrorCode};
use sqlite_schema::schema;

/// The version before today's.
pub(crate) const OLD: u32 = 1;

/// Today's version.
pub(crate) const NEW: u32 = 2;

/// The tables of version 1, in the order in which they are created.
pub(crate) const OLD_TABLES: [Table; 10] = [
    Table::Meta,
    Table::Cause,
    Table::Node,
    Table::Device,
    Table::Customer,
    Table::Entry,
    Table::Mark,
    Table::Command,
    Table::Moved,
    Table::Posting,
];

/// The tables of today's version, in the order in which they are created. That of in-service
/// intervals is the last.
const TABLES: [Table; 11] = [
    Table::Meta,
    Table::Cause,
    Table::Node,
    Table::Device,
    Table::Customer,
    Table::Entry,
    Table::Mark,
    Table::Command,
    Table::Moved,
    Table::Posting,
    Table::Life,
];

/// The number of indexes in the tables of either version. They keep names, references and keys of
/// several columns unique.
const INDEXES: usize = 6;

/// Whether the tables have exactly these names, in this order.
fn are_named(tables: &[schema::Table], known: &[Table]) -> bool
    ensures { IsTrue result ↔ (map (λ t. t.name) tables.now ≡ map table_name known.now) }
{
    if tables.len() != known.len() {
        return false;
    }
    'names: for at in 0..known.len() {
        if tables[at].name.as_slice() != known[at].name().as_bytes() {
            return false;
        }
    }
    true
}

/// Whether the tables have exactly these names, in this order, with as many indexes as the tables
/// of a version have, and without a view.
pub(crate) fn has_shape<S: Alter>(conn: &Connection<S>, known: &[Table]) -> bool
    ensures { IsTrue result ↔ HasShape known.now (state S.Store conn.now).now.schema }
{
    let schema = conn.schema();
    if schema.indexes.len() != INDEXES {
        return false;
    }
    if !schema.views.is_empty() {
        return false;
    }
    are_named(schema.tables.as_slice(), known)
}

/// Returns why the columns of a heading weren't found: `BadBook` if the tables lack them, or else a
/// fault of the store.
fn stop_of_look(error: Error) -> Stop
    ensures faults { IsReadFault result }
    ensures foreign { result ≡ bad_book → IsInputError error }
    ensures missed { IsInputError error → result ≡ bad_book }
    ensures memory { error ≡ Error.SqliteFailure ErrorCode.OutOfMemory → result ≡ out_of_memory }
{
    match error {
        Error::SqlInputError(_) => BAD_BOOK,
        Error::SqliteFailure(ErrorCode::OutOfMemory) => Stop::Fault(Fault::OutOfMemory),
        _ => Stop::Fault(Fault::Store),
    }
}

/// Looks up the columns of a heading before anything is read; a closed connection fails here. They
/// are the columns from which the version is read next.
pub(crate) fn look_at<S: Alter>(conn: &mut Connection<S>) -> Result<(), Stop>
    ensures { Looks S.Store conn.old conn.new result }
{
    // an open connection shows a complete database
    let _schema = conn.schema();
    if let Err(error) = conn.prepare("SELECT id, version, day0, days, zone FROM meta ORDER BY id") {
        return Err(stop_of_look(error));
    }
    Ok(())
}

/// Refuses with `OldVersion` if the heading is the only one and states version 1, and with
/// `BadBook` if the tables don't have the names of today's version. Nothing is written.
fn tell_version<S: Alter>(conn: &mut Connection<S>, is_book: bool) -> Result<(), Stop>
    requires { IsTrue is_book ↔ IsShapeOf AVersion.Two conn.old.schema }
    ensures tells { Tells S.Store AnyTrees NoneSo conn.old conn.new result }
    ensures kept { (v : AVersion) (t : Tables) → KeepsIn v (state S.Store conn.old) t
        → KeepsIn v (state S.Store conn.new) t }
    ensures shape { OnOk result (IsTrue is_book) }
{
    match has_version(conn, OLD) {
        Ok(true) => return Err(Stop::Refused(Refusal::OldVersion(OLD))),
        Ok(false) => {}
        Err(stop) => return Err(stop),
    }
    if is_book { Ok(()) } else { Err(BAD_BOOK) }
}

/// Refuses as `tell_version`, and checks first that the connection is open. Nothing is written.
pub(crate) fn check_version<S: Alter>(conn: &mut Connection<S>) -> Result<(), Stop>
    ensures tells { Tells S.Store AnyTrees NoneSo conn.old conn.new result }
    ensures asks { Asks S.Store conn.old conn.new result }
    ensures shape { HasCleanDisk (state S.Store conn.new)
        → OnOk result (IsShapeOf AVersion.Two conn.old.schema) }
{
    match look_at(conn) {
        Ok(()) => {}
        Err(stop) => return Err(stop),
    }
    let is_book = has_shape(conn, &TABLES);
    tell_version(conn, is_book)
}
