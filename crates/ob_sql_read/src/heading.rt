//! Reads the heading of a book back from its table.
ghost use Rattle.std.specs.Prelude.{◌≡◌, ◌≢◌, false, List, IfOk, IfErr, OnOk};
ghost use Rattle.sqlite.specs.Held.{state};
ghost use Rattle.sqlite.specs.State.{HasCleanDisk, IsUnchanged, Survives};
ghost use Rattle.ob_base.specs.Stop.{out_of_memory};
ghost use Rattle.ob_sql_rows.specs.Listings.{select_of};
ghost use Rattle.ob_sql_rows.specs.Schema.{no_schema};
ghost use Rattle.ob_sql_rows.specs.Versions.{schema_of};
ghost use Rattle.ob_sql_rows.specs.declared.version.Version.{Version};
ghost use Rattle.ob_sql_rows.specs.Rows.{Columns, Tables};
ghost use Rattle.ob_sql_rows.specs.Steps.{HasFaultCause};
ghost use Rattle.ob_sql_rows.specs.declared.table.Table.{Table as ATable};
ghost use Rattle.ob_sql_write.specs.Keeps.{KeepsIn};
ghost use Rattle.ob_record.specs.Tables.{Shows};
ghost use Rattle.ob_sql_read.specs.Faults.{HasNoMeaning, IsMissed, IsReadFault, bad_book};
ghost use Rattle.ob_sql_read.specs.Reading.{IsHeading, IsHeadingRow};

use crate::columns::{small_at, text_at};
use crate::query::list_all;
use ob_base::Stop;
use ob_sql_rows::{Table, select_of};
use sqlite::{Alter, Connection, Row};
use std::alloc::Global;

/// The row of `meta` of a book, of any number and version: its texts as they are stored.
#[derive(Drop)]
pub struct Heading {
    /// The text of the first day.
    pub first_day: Vec<u8>,
    /// The count of days.
    pub days: u16,
    /// The name of the time zone.
    pub zone: Vec<u8>,
}

/// Returns the heading in a row, if the row holds one.
fn heading_of(alloc: Global, row: &Row) -> Result<Option<Heading>, Stop>
    ensures heading { IfOk result (λ found. IsHeadingRow found row.now) }
    ensures err { IfErr result (λ stop. stop ≡ out_of_memory) }
{
    if row.column_count() != 5 {
        return Ok(None);
    }
    let Some(first_day) = text_at(row, 2) else {
        return Ok(None);
    };
    let Some(days) = small_at(row, 3) else {
        return Ok(None);
    };
    let Some(zone) = text_at(row, 4) else {
        return Ok(None);
    };
    let first_day = Vec::from_slice(alloc, first_day)?;
    let zone = Vec::from_slice(alloc, zone)?;
    Ok(Some(Heading {
        first_day,
        days,
        zone,
    }))
}

/// Returns the heading, if there is one row and it holds a heading.
fn heading_in(alloc: Global, rows: &[Row]) -> Result<Option<Heading>, Stop>
    ensures heading { IfOk result (λ found. IsHeading found rows.now) }
    ensures err { IfErr result (λ stop. stop ≡ out_of_memory) }
{
    if rows.len() != 1 {
        return Ok(None);
    }
    heading_of(alloc, &rows[0])
}

/// Reads the row of `meta` if it is the only one and has a first day, a count of days and a zone,
/// whatever its number and its version. None if `meta` holds anything else. Refuses with `BadBook`
/// if the database lacks the table. The tables may be those of either version.
pub fn read_heading<S: Alter>(
    alloc: Global,
    conn: &mut Connection<S>,
) -> Result<Option<Heading>, Stop>
    ensures mode { conn.old.in_transaction ≡ false → conn.new.in_transaction ≡ false }
    ensures survives { Survives (state S.Store conn.old) (state S.Store conn.new) (λ _. ⊥) }
    ensures kept { (v : Version) (t : Tables) → KeepsIn v (state S.Store conn.old) t
        → KeepsIn v (state S.Store conn.new) t }
    ensures clean { HasCleanDisk (state S.Store conn.new) → HasCleanDisk (state S.Store conn.old) }
    ensures faults { IfErr result IsReadFault }
    ensures cause { HasCleanDisk (state S.Store conn.new) → (v : Version) → conn.old.schema ≡ schema_of v
        → HasFaultCause (state S.Store conn.old) (state S.Store conn.new) result }
    ensures foreign { HasCleanDisk (state S.Store conn.new)
        → IfErr result (λ stop. stop ≡ bad_book → (v : Version) → conn.old.schema ≢ schema_of v) }
    ensures missed { HasNoMeaning conn.old.schema (select_of ATable.Meta)
        → Survives (state S.Store conn.old) (state S.Store conn.new) (λ _. ⊥)
        × (HasCleanDisk (state S.Store conn.new) → IsMissed (state S.Store conn.old)
        (state S.Store conn.new) result) }
    ensures empty { conn.old.schema ≡ no_schema → Survives (state S.Store conn.old)
        (state S.Store conn.new) (λ _. ⊥) × (HasCleanDisk (state S.Store conn.new)
        → IsMissed (state S.Store conn.old) (state S.Store conn.new) result) }
    ensures same { HasCleanDisk (state S.Store conn.new)
        → OnOk result ((v : Version) → conn.old.schema ≡ schema_of v
        → IsUnchanged (state S.Store conn.old) (state S.Store conn.new)) }
    ensures read { HasCleanDisk (state S.Store conn.new)
        → IfOk result (λ found. (v : Version) → conn.old.schema ≡ schema_of v
        → (rows : List Columns) → Shows (state S.Store conn.old).now.trees ATable.Meta rows
        → IsHeading found rows) }
{
    // No `?` here: it would convert the error, and the contract states which error it is.
    match list_all(conn, select_of(Table::Meta)) {
        Ok(rows) => heading_in(alloc, &rows),
        Err(stop) => Err(stop),
    }
}
