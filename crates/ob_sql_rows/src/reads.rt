//! The statements that read rows, each in its own function.
ghost use Rattle.std.specs.Prelude.{◌≡◌, IfOk};
ghost use Rattle.sqlite.specs.Held.{state};
ghost use Rattle.sqlite.specs.State.{HasCleanDisk};
ghost use Rattle.ob_sql_rows.specs.Schema.{book_schema};
ghost use Rattle.ob_sql_rows.specs.Steps.{Reads, Finds, HasFaultCause};
ghost use Rattle.ob_sql_rows.specs.Rows.{is_reference};
ghost use Rattle.ob_sql_rows.specs.declared.table.Table.{Table as ATable};

use crate::run::stop_of;
use ob_base::Stop;
use sqlite::{Alter, Row, Transaction};
use sqlite_value::value::ValueRef;

/// Finds the rows of the commands with a reference: none or one. Nothing is changed.
pub fn find_commands<S: Alter>(
    tx: &mut Transaction<'_, S>,
    reference: &[u8],
) -> Result<Vec<Row>, Stop>
    ensures reads { Reads S.Store tx.old.conn tx.new.conn result }
    ensures found { HasCleanDisk (state S.Store tx.new.conn.now)
        → IfOk result (λ rows. Finds (state S.Store tx.old.conn.now) ATable.Command
        (is_reference reference.now) rows.items) }
    ensures cause { HasCleanDisk (state S.Store tx.new.conn.now)
        → tx.old.conn.now.schema ≡ book_schema
        → HasFaultCause (state S.Store tx.old.conn.now) (state S.Store tx.new.conn.now) result }
{
    match tx.query_all(
        "SELECT id, ref, body FROM cmd WHERE ref = ?1",
        &[ValueRef::Text(reference)],
    ) {
        Ok(rows) => Ok(rows),
        Err(error) => Err(stop_of(error)),
    }
}
