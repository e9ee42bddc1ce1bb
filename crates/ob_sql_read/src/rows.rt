//! Reads the rows of a query one after another.
ghost use Rattle.std.specs.Prelude.{◌≡◌, ℕ, false, List, [], IfOk, IfErr, OnOk};
ghost use Rattle.sqlite.specs.Order.{Row as ARow};
ghost use Rattle.sqlite.specs.Held.{state};
ghost use Rattle.sqlite.specs.Schema.{Schema};
ghost use Rattle.sqlite.specs.Given.{Advances, HasGiven, row_if};
ghost use Rattle.sqlite.specs.State.{HasCleanDisk, IsUnchanged, Survives};
ghost use Rattle.ob_sql_rows.specs.declared.version.Version.{Version};
ghost use Rattle.ob_sql_rows.specs.Rows.{Tables};
ghost use Rattle.ob_sql_rows.specs.Queries.{IsAlwaysAnswered};
ghost use Rattle.ob_sql_rows.specs.Steps.{HasFaultCause, IsStoreFault};
ghost use Rattle.ob_sql_write.specs.Keeps.{KeepsIn};
ghost use Rattle.ob_sql_read.specs.Listing.{Listing, IsListingOver, Ends};

use ob_base::Stop;
use ob_sql_rows::stop_of;
use sqlite::{Alter, Rows};

/// Moves to the next row, or past the last.
pub(crate) fn advance<S: Alter>(rows: &mut Rows<'_, S>) -> Result<(), Stop>
    ensures same_reference { rows.new.conn.ghost_name ≡ rows.old.conn.ghost_name }
    ensures survives { Survives (state S.Store rows.old.conn.now) (state S.Store rows.new.conn.now)
        (λ _. ⊥) }
    ensures kept { (v : Version) (t : Tables) → KeepsIn v (state S.Store rows.old.conn.now) t
        → KeepsIn v (state S.Store rows.new.conn.now) t }
    ensures mode { rows.old.conn.now.in_transaction ≡ false
        → rows.new.conn.now.in_transaction ≡ false }
    ensures faults { IfErr result IsStoreFault }
    ensures cause { HasCleanDisk (state S.Store rows.new.conn.now) → (text : List ℕ)
        → IsAlwaysAnswered rows.old.conn.now.schema text [] → (given : List ARow)
        → HasGiven S.Store text [] rows.old.conn.now given
        → HasFaultCause (state S.Store rows.old.conn.now) (state S.Store rows.new.conn.now) result }
    ensures same { HasCleanDisk (state S.Store rows.new.conn.now)
        → OnOk result (IsUnchanged (state S.Store rows.old.conn.now)
        (state S.Store rows.new.conn.now)) }
    ensures goes { HasCleanDisk (state S.Store rows.new.conn.now)
        → OnOk result (Advances S.Store rows.old.conn.now rows.new.conn.now
        (row_if rows.new.has_row rows.new.conn.now)) }
{
    match rows.advance() {
        Ok(()) => Ok(()),
        Err(error) => Err(stop_of(error)),
    }
}

/// Whether no row is left.
pub(crate) fn is_over<S: Alter>(rows: &mut Rows<'_, S>) -> Result<bool, Stop>
    ensures same_reference { rows.new.conn.ghost_name ≡ rows.old.conn.ghost_name }
    ensures survives { Survives (state S.Store rows.old.conn.now) (state S.Store rows.new.conn.now)
        (λ _. ⊥) }
    ensures kept { (v : Version) (t : Tables) → KeepsIn v (state S.Store rows.old.conn.now) t
        → KeepsIn v (state S.Store rows.new.conn.now) t }
    ensures mode { rows.old.conn.now.in_transaction ≡ false
        → rows.new.conn.now.in_transaction ≡ false }
    ensures faults { IfErr result IsStoreFault }
    ensures cause { HasCleanDisk (state S.Store rows.new.conn.now) → (text : List ℕ)
        → IsAlwaysAnswered rows.old.conn.now.schema text [] → (given : List ARow)
        → HasGiven S.Store text [] rows.old.conn.now given
        → HasFaultCause (state S.Store rows.old.conn.now) (state S.Store rows.new.conn.now) result }
    ensures same { HasCleanDisk (state S.Store rows.new.conn.now)
        → OnOk result (IsUnchanged (state S.Store rows.old.conn.now)
        (state S.Store rows.new.conn.now)) }
    ensures over { HasCleanDisk (state S.Store rows.new.conn.now)
        → IfOk result (λ is. (schema : Schema) (l : Listing) → IsListingOver schema l
        → (state S.Store rows.old.conn.now).now.schema ≡ schema → (given : List ARow)
        → HasGiven S.Store l.text [] rows.old.conn.now given
        → Ends S.Store l is rows.new.conn.now given) }
{
    advance(rows)?;
    match rows.get() {
        Some(_) => Ok(false),
        None => Ok(true),
    }
}
