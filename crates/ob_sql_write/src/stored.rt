//! Reads the changes of amounts that a stored command made.
ghost use Rattle.std.specs.Prelude.{◌≡◌, false, List, All, IsPermutation, filter, IsOk, IfOk, IfErr};
ghost use Rattle.sqlite.specs.Held.{state};
ghost use Rattle.sqlite.specs.State.{HasCleanDisk, Survives};
ghost use Rattle.ob_post.specs.Moved.{AreInOrder};
ghost use Rattle.ob_base.specs.Stop.{out_of_memory};
ghost use Rattle.ob_post.specs.declared.Moved.{Moved as AMoved};
ghost use Rattle.ob_sql_rows.specs.Schema.{book_schema};
ghost use Rattle.ob_sql_rows.specs.Steps.{HasFaultCause, Reads, IsStoreFault};
ghost use Rattle.ob_sql_rows.specs.Rows.{Tables, is_key};
ghost use Rattle.ob_sql_rows.specs.declared.table.Table.{Table as ATable};
ghost use Rattle.ob_sql_write.specs.Keeps.{Keeps};
ghost use Rattle.ob_sql_write.specs.Known.{store_fault};
ghost use Rattle.ob_sql_write.specs.Stored.{FindsMoves, AreMovesIn, HaveSmallKeys, IsMoveOf, row_of, rows_of};

use crate::moved_row::read_moved;
use ob_base::{Fault, Stop};
use ob_post::Moved;
use ob_sql_rows::stop_of;
use sqlite::{Alter, Connection, Row, Transaction};
use sqlite_value::value::ValueRef;
use std::alloc::Global;

/// Returns the changes of amounts that a command made, by dimension and key. Nothing is written.
pub fn stored_moves<S: Alter>(
    alloc: Global,
    conn: &mut Connection<S>,
    no: u32,
) -> Result<Vec<Moved>, Stop>
    requires mode { conn.old.in_transaction ≡ false }
    ensures mode { conn.new.in_transaction ≡ false }
    ensures faults { IfErr result IsStoreFault }
    ensures survives { Survives (state S.Store conn.old) (state S.Store conn.new) (λ _. ⊥) }
    ensures kept { (t : Tables) → Keeps (state S.Store conn.old) t
        → Keeps (state S.Store conn.new) t }
    ensures found { HasCleanDisk (state S.Store conn.new)
        → IfOk result (λ moves. (t : Tables) → Keeps (state S.Store conn.old) t
        → (expected : List AMoved) → AreInOrder expected
        → IsPermutation (filter (is_key no) (t ATable.Moved)) (rows_of no expected)
        → moves.items ≡ expected) }
    ensures cause { HasCleanDisk (state S.Store conn.new) → (t : Tables)
        → Keeps (state S.Store conn.old) t → (expected : List AMoved)
        → IsPermutation (filter (is_key no) (t ATable.Moved)) (rows_of no expected)
        → HaveSmallKeys expected
        → HasFaultCause (state S.Store conn.old) (state S.Store conn.new) result }
{
    match moved_rows(conn, no) {
        Ok(rows) => read_moves(alloc, &rows, no),
        Err(stop) => Err(stop),
    }
}

/// Returns the rows of the changes that a command made, by dimension and key. Nothing is written.
fn moved_rows<S: Alter>(conn: &mut Connection<S>, no: u32) -> Result<Vec<Row>, Stop>
    requires mode { conn.old.in_transaction ≡ false }
    ensures mode { conn.new.in_transaction ≡ false }
    ensures faults { IfErr result IsStoreFault }
    ensures survives { Survives (state S.Store conn.old) (state S.Store conn.new) (λ _. ⊥) }
    ensures kept { (t : Tables) → Keeps (state S.Store conn.old) t
        → Keeps (state S.Store conn.new) t }
    ensures found { HasCleanDisk (state S.Store conn.new)
        → IfOk result (λ rows. (t : Tables) → Keeps (state S.Store conn.old) t
        → AreMovesIn (t ATable.Moved) no rows.items) }
    ensures cause { HasCleanDisk (state S.Store conn.new) → conn.old.schema ≡ book_schema
        → HasFaultCause (state S.Store conn.old) (state S.Store conn.new) result }
{
    let mut tx = conn.transaction();
    find_moves(&mut tx, no)
}

/// Returns the rows of the changes that a command made, by dimension and key, inside a transaction.
/// Nothing is changed.
fn find_moves<S: Alter>(tx: &mut Transaction<'_, S>, no: u32) -> Result<Vec<Row>, Stop>
    ensures reads { Reads S.Store tx.old.conn tx.new.conn result }
    ensures found { HasCleanDisk (state S.Store tx.new.conn.now)
        → IfOk result (λ rows. FindsMoves (state S.Store tx.old.conn.now) no rows.items) }
    ensures cause { HasCleanDisk (state S.Store tx.new.conn.now)
        → tx.old.conn.now.schema ≡ book_schema
        → HasFaultCause (state S.Store tx.old.conn.now) (state S.Store tx.new.conn.now) result }
{
    match tx.query_all(
        "SELECT cmd, dim, k, delta FROM moved WHERE cmd = ?1 ORDER BY dim, k",
        &[ValueRef::Int(i64::from(no))],
    ) {
        Ok(rows) => Ok(rows),
        Err(error) => Err(stop_of(error)),
    }
}

/// Reads the changes that a command made from its rows, in their order.
fn read_moves(alloc: Global, rows: &[Row], no: u32) -> Result<Vec<Moved>, Stop>
    ensures told { IfOk result (λ moves. rows.now ≡ rows_of no moves.items) }
    ensures faults { IfErr result IsStoreFault }
    ensures readable { All (IsMoveOf no) rows.now → IfErr result (λ stop. stop ≡ out_of_memory) }
{
    let mut moves = Vec::new(alloc);
    'rows: for row in rows {
        moves.push(read_move(row, no)?)?;
    }
    Ok(moves)
}

/// Reads one change that a command made from its row. Any other row is a fault of the store.
fn read_move(row: &Row, no: u32) -> Result<Moved, Stop>
    ensures told { IfOk result (λ it. row.now ≡ row_of no it) }
    ensures fault { IfErr result (λ stop. stop ≡ store_fault) }
    ensures readable { IsMoveOf no row.now → IsOk result }
{
    match read_moved(row) {
        Some((its_no, it)) if its_no == no => Ok(it),
        _ => Err(Stop::Fault(Fault::Store)),
    }
}
