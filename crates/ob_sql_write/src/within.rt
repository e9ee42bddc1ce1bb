//! Inside an open transaction: writes the rows of a command, and looks up a reference among the
//! rows that the transaction shows.
ghost use Rattle.std.specs.Prelude.{◌≡◌, filter, IfOk};
ghost use Rattle.sqlite.specs.Held.{state};
ghost use Rattle.sqlite.specs.State.{HasCleanDisk};
ghost use Rattle.ob_sql_rows.specs.Schema.{book_schema};
ghost use Rattle.ob_sql_rows.specs.Steps.{Changes, Finds, HasFaultCause};
ghost use Rattle.ob_sql_rows.specs.Rows.{Holds, Tables, is_reference};
ghost use Rattle.ob_sql_rows.specs.declared.table.Table.{Table as ATable};
ghost use Rattle.ob_sql_write.specs.Acts.{CanWrite, LetsAct, NeedsRows, with_act};
ghost use Rattle.ob_sql_write.specs.Known.{AreOfOne, IsUnder};
ghost use Rattle.ob_sql_write.specs.Within.{Looks};

use crate::act::Act;
use crate::change::write_rows;
use crate::known::{Known, tell};
use crate::moves::write_moves;
use ob_base::Stop;
use ob_post::Postings;
use ob_sql_rows::{add_command, stop_of};
use sqlite::{Alter, Row, Transaction};
use sqlite_value::value::ValueRef;

/// Writes the rows of an accepted command inside a transaction and commits nothing: the rows that
/// it changes, its own row, and the rows of the amounts that it changes.
pub fn write_act<S: Alter>(
    tx: &mut Transaction<'_, S>,
    act: &Act<'_>,
    postings: &Postings,
) -> Result<(), Stop>
    requires can { CanWrite postings.now act.now }
    ensures { Changes S.Store tx.old.conn tx.new.conn result
        (NeedsRows postings.now act.now) (LetsAct act.now) (with_act postings.now act.now) }
{
    write_rows(tx, act.resolved)?;
    add_command(tx, act.no, act.reference, act.body)?;
    write_moves(tx, act.no, postings, act.moves)
}

/// Looks up a reference among the rows that a transaction shows, those that it wrote itself
/// included. Nothing is written.
pub fn look_up_within<S: Alter>(
    tx: &mut Transaction<'_, S>,
    reference: &[u8],
    body: &[u8],
) -> Result<Known, Stop>
    ensures looks { Looks S.Store tx.old.conn tx.new.conn result }
    ensures found { HasCleanDisk (state S.Store tx.new.conn.now)
        → IfOk result (λ known. tx.old.conn.now.schema ≡ book_schema → (t : Tables)
        → Holds (state S.Store tx.old.conn.now).now.trees t
        → IsUnder (filter (is_reference reference.now) (t ATable.Command)) reference.now body.now
        known) }
    ensures cause { HasCleanDisk (state S.Store tx.new.conn.now)
        → tx.old.conn.now.schema ≡ book_schema → (t : Tables)
        → Holds (state S.Store tx.old.conn.now).now.trees t
        → AreOfOne (filter (is_reference reference.now) (t ATable.Command)) reference.now
        → HasFaultCause (state S.Store tx.old.conn.now) (state S.Store tx.new.conn.now) result }
{
    match rows_under(tx, reference) {
        Ok(rows) => tell(&rows, reference, body),
        Err(stop) => Err(stop),
    }
}

/// Returns the rows of the commands with a reference: one or none. Nothing is written.
fn rows_under<S: Alter>(tx: &mut Transaction<'_, S>, reference: &[u8]) -> Result<Vec<Row>, Stop>
    ensures looks { Looks S.Store tx.old.conn tx.new.conn result }
    ensures found { HasCleanDisk (state S.Store tx.new.conn.now)
        → IfOk result (λ rows. Finds (state S.Store tx.old.conn.now) ATable.Command
        (is_reference reference.now) rows.items) }
    ensures cause { HasCleanDisk (state S.Store tx.new.conn.now)
        → tx.old.conn.now.schema ≡ book_schema
        → HasFaultCause (state S.Store tx.old.conn.now) (state S.Store tx.new.conn.now) result }
{
    match tx.query_all(
        "SELECT id, ref, body FROM cmd WHERE ref = ?1",
        &[ValueRef::Text(reference)],
    ) {
        Ok(rows) => Ok(rows),
        Err(error) => Err(stop_of(error)),
    }
}
