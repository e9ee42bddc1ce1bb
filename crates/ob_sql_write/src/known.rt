//! Looks up a reference in the table of commands.
ghost use Rattle.std.specs.Prelude.{◌≡◌, ◌<◌, ◌^◌, ◌∷◌, [], ℕ, false, filter, List, IsPermutation, IsOk, IfOk, IfErr};
ghost use Rattle.sqlite.specs.Held.{state};
ghost use Rattle.sqlite.specs.State.{HasCleanDisk, Survives};
ghost use Rattle.ob_sql_rows.specs.Schema.{book_schema};
ghost use Rattle.ob_sql_rows.specs.Steps.{HasFaultCause, IsStoreFault};
ghost use Rattle.ob_sql_rows.specs.Rows.{Tables, command_row, is_reference};
ghost use Rattle.ob_sql_rows.specs.declared.table.Table.{Table as ATable};
ghost use Rattle.ob_sql_write.specs.Keeps.{Keeps};
ghost use Rattle.ob_sql_write.specs.Known.{AreOfOne, IsUnder, store_fault};

use crate::columns::{number_at, text_at};
use ob_base::{Fault, Stop};
use ob_sql_rows::find_commands;
use sqlite::{Alter, Connection, Row};

/// The result of looking up a reference.
#[derive(Clone, Copy)]
pub enum Known {
    /// No command has the reference.
    New,
    /// The command of this number has the reference and the same body.
    Same(u32),
    /// The command of this number has the reference and another body.
    Other(u32),
}

/// Looks up a reference in the tables. Nothing is written.
pub fn look_up<S: Alter>(
    conn: &mut Connection<S>,
    reference: &[u8],
    body: &[u8],
) -> Result<Known, Stop>
    requires mode { conn.old.in_transaction ≡ false }
    ensures mode { conn.new.in_transaction ≡ false }
    ensures faults { IfErr result IsStoreFault }
    ensures survives { Survives (state S.Store conn.old) (state S.Store conn.new) (λ _. ⊥) }
    ensures kept { (t : Tables) → Keeps (state S.Store conn.old) t
        → Keeps (state S.Store conn.new) t }
    ensures found { HasCleanDisk (state S.Store conn.new)
        → IfOk result (λ known. (t : Tables) → Keeps (state S.Store conn.old) t
        → IsUnder (filter (is_reference reference.now) (t ATable.Command)) reference.now body.now
        known) }
    ensures cause { HasCleanDisk (state S.Store conn.new) → (t : Tables)
        → Keeps (state S.Store conn.old) t
        → AreOfOne (filter (is_reference reference.now) (t ATable.Command)) reference.now
        → HasFaultCause (state S.Store conn.old) (state S.Store conn.new) result }
{
    match known_rows(conn, reference) {
        Ok(rows) => tell(&rows, reference, body),
        Err(stop) => Err(stop),
    }
}

/// Returns the rows of the commands with a reference: one or none. Nothing is written.
fn known_rows<S: Alter>(conn: &mut Connection<S>, reference: &[u8]) -> Result<Vec<Row>, Stop>
    requires mode { conn.old.in_transaction ≡ false }
    ensures mode { conn.new.in_transaction ≡ false }
    ensures faults { IfErr result IsStoreFault }
    ensures survives { Survives (state S.Store conn.old) (state S.Store conn.new) (λ _. ⊥) }
    ensures kept { (t : Tables) → Keeps (state S.Store conn.old) t
        → Keeps (state S.Store conn.new) t }
    ensures found { HasCleanDisk (state S.Store conn.new)
        → IfOk result (λ rows. (t : Tables) → Keeps (state S.Store conn.old) t
        → IsPermutation (filter (is_reference reference.now) (t ATable.Command)) rows.items) }
    ensures cause { HasCleanDisk (state S.Store conn.new) → conn.old.schema ≡ book_schema
        → HasFaultCause (state S.Store conn.old) (state S.Store conn.new) result }
{
    let mut tx = conn.transaction();
    find_commands(&mut tx, reference)
}

/// Reads the result from the rows with a reference.
pub(crate) fn tell(rows: &[Row], reference: &[u8], body: &[u8]) -> Result<Known, Stop>
    ensures told { IfOk result (IsUnder rows.now reference.now body.now) }
    ensures fault { IfErr result (λ stop. stop ≡ store_fault) }
    ensures known { AreOfOne rows.now reference.now → IsOk result }
{
    match rows {
        [] => Ok(Known::New),
        [row] => tell_row(row, reference, body),
        _ => Err(Stop::Fault(Fault::Store)),
    }
}

/// Reads the result from the one row with a reference. Any other row is a fault of the store.
fn tell_row(row: &Row, reference: &[u8], body: &[u8]) -> Result<Known, Stop>
    ensures told { IfOk result (IsUnder (row.now ∷ []) reference.now body.now) }
    ensures fault { IfErr result (λ stop. stop ≡ store_fault) }
    ensures known { (n : ℕ) (its : List ℕ) → n < 2 ^ 32
        → row.now ≡ command_row n reference.now its → IsOk result }
{
    let no = number_at(row, 0)?;
    let its_reference = text_at(row, 1)?;
    let its_body = text_at(row, 2)?;
    if row.column_count() != 3 || its_reference != reference {
        return Err(Stop::Fault(Fault::Store));
    }
    if its_body == body {
        Ok(Known::Same(no))
    } else {
        Ok(Known::Other(no))
    }
}
