//! The version of a book, read from its heading.
ghost use Rattle.std.specs.Prelude.{◌≡◌, ◌↔◌, false, List, [], IsTrue, IfOk, IfErr, OnOk};
ghost use Rattle.sqlite.specs.Held.{state};
ghost use Rattle.sqlite.specs.State.{HasCleanDisk, IsUnchanged, Shown, Survives};
ghost use Rattle.ob_sql_rows.specs.Listings.{select_of};
ghost use Rattle.ob_sql_rows.specs.Schema.{no_schema};
ghost use Rattle.ob_sql_rows.specs.Versions.{schema_of};
ghost use Rattle.ob_sql_rows.specs.declared.version.Version.{Version};
ghost use Rattle.ob_sql_rows.specs.Rows.{Columns, Tables};
ghost use Rattle.ob_sql_rows.specs.Steps.{HasFaultCause};
ghost use Rattle.ob_sql_rows.specs.declared.table.Table.{Table as ATable};
ghost use Rattle.ob_sql_write.specs.Keeps.{KeepsIn};
ghost use Rattle.ob_sql_read.specs.Faults.{HasNoMeaning, IsMissed, IsReadFault, bad_book};
ghost use Rattle.ob_sql_read.specs.Version.{HasVersion, IsOfBook, IsVersionRow};

use crate::columns::has_number;
use crate::query::list_all;
use ob_base::Stop;
use ob_sql_rows::{Table, select_of};
use sqlite::{Alter, Connection, Row};

/// Whether there is one row, with this version.
fn is_version(rows: &[Row], version: u32) -> bool
    ensures { IsTrue result ↔ IsVersionRow version rows.now }
{
    rows.len() == 1 && has_number(&rows[0], 1, version)
}

/// Whether `meta` holds exactly one row, with this version. Works on today's tables and on those of
/// version 1. Nothing is written. Refuses with `BadBook` if the database lacks the table.
pub fn has_version<S: Alter>(conn: &mut Connection<S>, version: u32) -> Result<bool, Stop>
    ensures mode { conn.old.in_transaction ≡ false → conn.new.in_transaction ≡ false }
    ensures survives { Survives (state S.Store conn.old) (state S.Store conn.new) (λ _. ⊥) }
    ensures kept { (v : Version) (t : Tables) → KeepsIn v (state S.Store conn.old) t
        → KeepsIn v (state S.Store conn.new) t }
    ensures clean { HasCleanDisk (state S.Store conn.new) → HasCleanDisk (state S.Store conn.old) }
    ensures faults { IfErr result IsReadFault }
    ensures cause { HasCleanDisk (state S.Store conn.new) → (v : Version) → conn.old.schema ≡ schema_of v
        → HasFaultCause (state S.Store conn.old) (state S.Store conn.new) result }
    ensures foreign { HasCleanDisk (state S.Store conn.new)
        → IfErr result (λ stop. stop ≡ bad_book → ¬ (IsOfBook conn.old.schema)) }
    ensures missed { HasNoMeaning conn.old.schema (select_of ATable.Meta)
        → Survives (state S.Store conn.old) (state S.Store conn.new) (λ _. ⊥)
        × (HasCleanDisk (state S.Store conn.new) → IsMissed (state S.Store conn.old)
        (state S.Store conn.new) result) }
    ensures empty { conn.old.schema ≡ no_schema → Survives (state S.Store conn.old)
        (state S.Store conn.new) (λ _. ⊥) × (HasCleanDisk (state S.Store conn.new)
        → IsMissed (state S.Store conn.old) (state S.Store conn.new) result) }
    ensures same { HasCleanDisk (state S.Store conn.new) → OnOk result (IsOfBook conn.old.schema
        → IsUnchanged (state S.Store conn.old) (state S.Store conn.new)) }
    // These rows were shown, whatever the tables are.
    ensures shown { HasCleanDisk (state S.Store conn.new)
        → IfOk result (λ is. (rows : List Columns) × Shown (select_of ATable.Meta) []
        (state S.Store conn.old) (state S.Store conn.new) rows
        × (IsTrue is ↔ IsVersionRow version rows)) }
    ensures version { HasCleanDisk (state S.Store conn.new)
        → IfOk result (λ is. IsOfBook conn.old.schema
        → IsTrue is ↔ HasVersion version (state S.Store conn.old).now.trees) }
{
    // No `?` here: it would convert the error, and the contract states which error it is.
    match list_all(conn, select_of(Table::Meta)) {
        Ok(rows) => Ok(is_version(&rows, version)),
        Err(stop) => Err(stop),
    }
}
