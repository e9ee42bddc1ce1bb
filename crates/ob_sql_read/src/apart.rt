//! Checks that the rows of amounts have different row numbers.
ghost use Rattle.std.specs.Prelude.{◌≡◌, ◌↔◌, ℤ, false, List, [], Some, IsTrue, IfOk, IfErr, OnOk};
ghost use Rattle.sqlite.specs.Order.{Row as ARow};
ghost use Rattle.sqlite.specs.Tree.{rowid};
ghost use Rattle.sqlite.specs.Held.{state};
ghost use Rattle.sqlite.specs.Given.{HasGiven};
ghost use Rattle.sqlite.specs.State.{HasCleanDisk, IsUnchanged, Survives};
ghost use Rattle.sqlite.specs.declared.types.Value.TheVariants.{Int};
ghost use Rattle.ob_sql_rows.specs.Versions.{schema_of};
ghost use Rattle.ob_sql_rows.specs.declared.version.Version.{Version};
ghost use Rattle.ob_sql_rows.specs.Rows.{AreApart, Tables};
ghost use Rattle.ob_sql_write.specs.Keeps.{KeepsIn};
ghost use Rattle.ob_sql_rows.specs.Steps.{HasFaultCause, IsStoreFault};
ghost use Rattle.ob_sql_read.specs.Apart.{IsAbove, IsNextAbove, NumberStands, number_text};

use crate::rows::advance;
use ob_base::Stop;
use ob_sql_rows::stop_of;
use sqlite::{Alter, Connection, Row, Rows};
use sqlite_value::value::ValueRef;

/// Returns the number in the first column of the row, if it is above the last number.
pub(crate) fn higher_in(row: &Row, last: Option<i64>) -> Option<i64>
    ensures { (n : ℤ) → (result ≡ Some n) ↔ ((rowid row.now ≡ Int n) × IsAbove last n) }
{
    let Ok(ValueRef::Int(number)) = row.get_ref(0) else {
        return None;
    };
    if let Some(last) = last {
        if number <= last {
            return None;
        }
    }
    Some(number)
}

/// The next item among the row numbers.
enum NextNumber {
    /// A number above the last.
    Higher(i64),
    /// Something else.
    Other,
    /// No row.
    End,
}

/// Reads the next item after the last number.
fn next_number<S: Alter>(rows: &mut Rows<'_, S>, last: Option<i64>) -> Result<NextNumber, Stop>
    ensures same_reference { rows.new.conn.ghost_name ≡ rows.old.conn.ghost_name }
    ensures survives { Survives (state S.Store rows.old.conn.now) (state S.Store rows.new.conn.now)
        (λ _. ⊥) }
    ensures mode { rows.old.conn.now.in_transaction ≡ false
        → rows.new.conn.now.in_transaction ≡ false }
    ensures faults { IfErr result IsStoreFault }
    ensures cause { HasCleanDisk (state S.Store rows.new.conn.now)
        → (v : Version) → (state S.Store rows.old.conn.now).now.schema ≡ schema_of v
        → (given : List ARow) → HasGiven S.Store number_text [] rows.old.conn.now given
        → HasFaultCause (state S.Store rows.old.conn.now) (state S.Store rows.new.conn.now) result }
    ensures kept { (v : Version) (t : Tables) → KeepsIn v (state S.Store rows.old.conn.now) t
        → KeepsIn v (state S.Store rows.new.conn.now) t }
    ensures above { IfOk result (IsNextAbove last) }
    ensures same { HasCleanDisk (state S.Store rows.new.conn.now)
        → OnOk result (IsUnchanged (state S.Store rows.old.conn.now)
        (state S.Store rows.new.conn.now)) }
    ensures stands { HasCleanDisk (state S.Store rows.new.conn.now) → IfOk result (λ next.
        (v : Version) → (state S.Store rows.old.conn.now).now.schema ≡ schema_of v
        → (given : List ARow) → HasGiven S.Store number_text [] rows.old.conn.now given
        → NumberStands S.Store last next rows.new.conn.now given) }
{
    advance(rows)?;
    let Some(row) = rows.get() else {
        return Ok(NextNumber::End);
    };
    match higher_in(row, last) {
        Some(number) => Ok(NextNumber::Higher(number)),
        None => Ok(NextNumber::Other),
    }
}

/// Whether the row numbers still to be read rise.
fn rise<S: Alter>(rows: &mut Rows<'_, S>) -> Result<bool, Stop>
    ensures same_reference { rows.new.conn.ghost_name ≡ rows.old.conn.ghost_name }
    ensures survives { Survives (state S.Store rows.old.conn.now) (state S.Store rows.new.conn.now)
        (λ _. ⊥) }
    ensures mode { rows.old.conn.now.in_transaction ≡ false
        → rows.new.conn.now.in_transaction ≡ false }
    ensures faults { IfErr result IsStoreFault }
    ensures cause { HasCleanDisk (state S.Store rows.new.conn.now)
        → IsTrue (state S.Store rows.old.conn.now).is_open
        → (v : Version) → (state S.Store rows.old.conn.now).now.schema ≡ schema_of v
        → HasGiven S.Store number_text [] rows.old.conn.now []
        → HasFaultCause (state S.Store rows.old.conn.now) (state S.Store rows.new.conn.now) result }
    ensures kept { (v : Version) (t : Tables) → KeepsIn v (state S.Store rows.old.conn.now) t
        → KeepsIn v (state S.Store rows.new.conn.now) t }
    ensures same { HasCleanDisk (state S.Store rows.new.conn.now) → OnOk result
        (IsTrue (state S.Store rows.old.conn.now).is_open
        → IsUnchanged (state S.Store rows.old.conn.now) (state S.Store rows.new.conn.now)) }
    ensures apart { HasCleanDisk (state S.Store rows.new.conn.now)
        → IfOk result (λ is. IsTrue (state S.Store rows.old.conn.now).is_open → (v : Version)
        → (state S.Store rows.old.conn.now).now.schema ≡ schema_of v
        → HasGiven S.Store number_text [] rows.old.conn.now []
        → IsTrue is ↔ AreApart ((state S.Store rows.old.conn.now).now.trees 14)) }
{
    let mut last = None;
    'rows: loop {
        match next_number(rows, last)? {
            NextNumber::Higher(number) => last = Some(number),
            NextNumber::Other => return Ok(false),
            NextNumber::End => return Ok(true),
        }
    }
}

/// Whether each row of the table of amounts has a number as its hidden key, and no two have the
/// same. Nothing is written. The tables may be those of either version.
pub fn are_apart<S: Alter>(conn: &mut Connection<S>) -> Result<bool, Stop>
    ensures mode { conn.old.in_transaction ≡ false → conn.new.in_transaction ≡ false }
    ensures survives { Survives (state S.Store conn.old) (state S.Store conn.new) (λ _. ⊥) }
    ensures clean { HasCleanDisk (state S.Store conn.new) → HasCleanDisk (state S.Store conn.old) }
    ensures faults { IfErr result IsStoreFault }
    ensures cause { HasCleanDisk (state S.Store conn.new) → (v : Version) → conn.old.schema ≡ schema_of v
        → HasFaultCause (state S.Store conn.old) (state S.Store conn.new) result }
    ensures kept { (v : Version) (t : Tables) → KeepsIn v (state S.Store conn.old) t
        → KeepsIn v (state S.Store conn.new) t }
    ensures same { HasCleanDisk (state S.Store conn.new)
        → OnOk result ((v : Version) → conn.old.schema ≡ schema_of v
        → IsUnchanged (state S.Store conn.old) (state S.Store conn.new)) }
    ensures apart { HasCleanDisk (state S.Store conn.new)
        → IfOk result (λ is. (v : Version) → conn.old.schema ≡ schema_of v
        → IsTrue is ↔ AreApart ((state S.Store conn.old).now.trees 14)) }
{
    let statement = match conn.prepare("SELECT rowid FROM posting ORDER BY rowid") {
        Ok(statement) => statement,
        Err(error) => return Err(stop_of(error)),
    };
    match conn.query_prepared(&statement, &[]) {
        Ok(mut rows) => rise(&mut rows),
        Err(error) => Err(stop_of(error)),
    }
}
