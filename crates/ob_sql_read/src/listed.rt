//! Compares the rows of a table, one after another, with a part of a book.
ghost use Rattle.std.specs.Prelude.{◌≡◌, ◌↔◌, ◌<◌, List, Option, Some, None, []};
ghost use Rattle.std.specs.Prelude.{false, is_some, length, slice_index_or, IsTrue, IfOk, IfErr, OnOk, ◌∷◌};
ghost use Rattle.std.specs.List.Sorted.{IsStrictlySortedBy};
ghost use Rattle.sqlite.specs.Order.{Row as ARow};
ghost use Rattle.sqlite.specs.Held.{state};
ghost use Rattle.sqlite.specs.Given.{HasGiven};
ghost use Rattle.sqlite.specs.State.{HasCleanDisk, IsUnchanged, Survives};
ghost use Rattle.ob_sql_rows.specs.Listings.{select_of};
ghost use Rattle.ob_sql_rows.specs.Versions.{Has, schema_of};
ghost use Rattle.ob_sql_rows.specs.declared.version.Version.{Version};
ghost use Rattle.ob_sql_rows.specs.Rows.{Columns, Tables};
ghost use Rattle.ob_sql_rows.specs.Steps.{HasFaultCause, IsStoreFault};
ghost use Rattle.ob_sql_rows.specs.declared.table.Table.{Table as ATable};
ghost use Rattle.ob_sql_write.specs.Keeps.{KeepsIn};
ghost use Rattle.ob_record.specs.Tables.{Shows};
ghost use Rattle.ob_sql_read.specs.Listing.{Goes};
ghost use Rattle.ob_sql_read.specs.Parts.{Compares, listing_of, row_cmp, standing};

use crate::query::prepare;
use crate::rows::{advance, is_over};
use ob_base::Stop;
use ob_sql_rows::{Table, select_of, stop_of};
use sqlite::{Alter, Connection, Row, Rows};

/// A part of a book as rows of a table. It has numbered places; each place has one row or none. The
/// rows rise by key.
pub trait Listed {
    /// The table of the rows.
    ghost table: { ATable };

    /// The row of each place, if it has one.
    ghost places: { Self → List (Option Columns) };

    /// The table of the rows.
    fn table(&self) -> Table
        ensures { result ≡ table };

    /// The number of places.
    fn count(&self) -> usize
        ensures { result ≡ length (places self.now) };

    /// Whether a place has a row.
    fn has_row(&self, at: usize) -> bool
        requires { at < length (places self.now) }
        ensures { result ≡ is_some (slice_index_or (places self.now) at None) };

    /// Whether a row is the row of a place.
    fn is_row(&self, at: usize, row: &Row) -> bool
        requires { at < length (places self.now) }
        ensures { IsTrue result ↔ (slice_index_or (places self.now) at None ≡ Some row.now) };
}

/// Whether the next row is the row of a place, if that place has one.
fn goes_on<S: Alter, L: Listed>(rows: &mut Rows<'_, S>, listed: &L, at: usize) -> Result<bool, Stop>
    requires { at < length (L.places listed.now) }
    ensures same_reference { rows.new.conn.ghost_name ≡ rows.old.conn.ghost_name }
    ensures survives { Survives (state S.Store rows.old.conn.now) (state S.Store rows.new.conn.now)
        (λ _. ⊥) }
    ensures kept { (v : Version) (t : Tables) → KeepsIn v (state S.Store rows.old.conn.now) t
        → KeepsIn v (state S.Store rows.new.conn.now) t }
    ensures mode { rows.old.conn.now.in_transaction ≡ false
        → rows.new.conn.now.in_transaction ≡ false }
    ensures faults { IfErr result IsStoreFault }
    ensures cause { HasCleanDisk (state S.Store rows.new.conn.now) → (v : Version) → Has v L.table
        → rows.old.conn.now.schema ≡ schema_of v → (given : List ARow)
        → HasGiven S.Store (select_of L.table) [] rows.old.conn.now given
        → HasFaultCause (state S.Store rows.old.conn.now) (state S.Store rows.new.conn.now) result }
    ensures same { HasCleanDisk (state S.Store rows.new.conn.now)
        → OnOk result (IsTrue (state S.Store rows.old.conn.now).is_open
        → IsUnchanged (state S.Store rows.old.conn.now) (state S.Store rows.new.conn.now)) }
    ensures goes { HasCleanDisk (state S.Store rows.new.conn.now) → IfOk result (λ is.
        (v : Version) → Has v L.table → rows.old.conn.now.schema ≡ schema_of v
        → (given : List ARow) → HasGiven S.Store (select_of L.table) [] rows.old.conn.now given
        → Goes S.Store (listing_of L.table) is rows.new.conn.now given
        (standing (slice_index_or (L.places listed.now) at None ∷ []))) }
{
    if !listed.has_row(at) {
        return Ok(true);
    }
    advance(rows)?;
    match rows.get() {
        Some(row) => Ok(listed.is_row(at, row)),
        None => Ok(false),
    }
}

/// Whether the next rows are those of the places, one after another.
fn follows<S: Alter, L: Listed>(rows: &mut Rows<'_, S>, listed: &L) -> Result<bool, Stop>
    ensures same_reference { rows.new.conn.ghost_name ≡ rows.old.conn.ghost_name }
    ensures survives { Survives (state S.Store rows.old.conn.now) (state S.Store rows.new.conn.now)
        (λ _. ⊥) }
    ensures kept { (v : Version) (t : Tables) → KeepsIn v (state S.Store rows.old.conn.now) t
        → KeepsIn v (state S.Store rows.new.conn.now) t }
    ensures mode { rows.old.conn.now.in_transaction ≡ false
        → rows.new.conn.now.in_transaction ≡ false }
    ensures faults { IfErr result IsStoreFault }
    ensures cause { HasCleanDisk (state S.Store rows.new.conn.now)
        → IsTrue (state S.Store rows.old.conn.now).is_open → (v : Version) → Has v L.table
        → rows.old.conn.now.schema ≡ schema_of v → (given : List ARow)
        → HasGiven S.Store (select_of L.table) [] rows.old.conn.now given
        → HasFaultCause (state S.Store rows.old.conn.now) (state S.Store rows.new.conn.now) result }
    ensures same { HasCleanDisk (state S.Store rows.new.conn.now)
        → OnOk result (IsTrue (state S.Store rows.old.conn.now).is_open
        → IsUnchanged (state S.Store rows.old.conn.now) (state S.Store rows.new.conn.now)) }
    ensures goes { HasCleanDisk (state S.Store rows.new.conn.now)
        → IfOk result (λ is. IsTrue (state S.Store rows.old.conn.now).is_open → (v : Version)
        → Has v L.table → rows.old.conn.now.schema ≡ schema_of v → (given : List ARow)
        → HasGiven S.Store (select_of L.table) [] rows.old.conn.now given
        → Goes S.Store (listing_of L.table) is rows.new.conn.now given
        (standing (L.places listed.now))) }
{
    'places: for at in 0..listed.count() {
        if !goes_on(rows, listed, at)? {
            return Ok(false);
        }
    }
    Ok(true)
}

/// Whether the rows still to be read are those of the places, and no others.
fn matches<S: Alter, L: Listed>(rows: &mut Rows<'_, S>, listed: &L) -> Result<bool, Stop>
    requires rises { IsStrictlySortedBy (row_cmp L.table) (standing (L.places listed.now)) }
    ensures same_reference { rows.new.conn.ghost_name ≡ rows.old.conn.ghost_name }
    ensures survives { Survives (state S.Store rows.old.conn.now) (state S.Store rows.new.conn.now)
        (λ _. ⊥) }
    ensures kept { (v : Version) (t : Tables) → KeepsIn v (state S.Store rows.old.conn.now) t
        → KeepsIn v (state S.Store rows.new.conn.now) t }
    ensures mode { rows.old.conn.now.in_transaction ≡ false
        → rows.new.conn.now.in_transaction ≡ false }
    ensures faults { IfErr result IsStoreFault }
    ensures cause { HasCleanDisk (state S.Store rows.new.conn.now)
        → IsTrue (state S.Store rows.old.conn.now).is_open → (v : Version) → Has v L.table
        → rows.old.conn.now.schema ≡ schema_of v
        → HasGiven S.Store (select_of L.table) [] rows.old.conn.now []
        → HasFaultCause (state S.Store rows.old.conn.now) (state S.Store rows.new.conn.now) result }
    ensures same { HasCleanDisk (state S.Store rows.new.conn.now)
        → OnOk result (IsTrue (state S.Store rows.old.conn.now).is_open
        → IsUnchanged (state S.Store rows.old.conn.now) (state S.Store rows.new.conn.now)) }
    ensures holds { HasCleanDisk (state S.Store rows.new.conn.now)
        → IfOk result (λ is. IsTrue (state S.Store rows.old.conn.now).is_open → (v : Version)
        → Has v L.table → rows.old.conn.now.schema ≡ schema_of v
        → HasGiven S.Store (select_of L.table) [] rows.old.conn.now []
        → IsTrue is ↔ Shows (state S.Store rows.old.conn.now).now.trees L.table
        (standing (L.places listed.now))) }
{
    if !follows(rows, listed)? {
        return Ok(false);
    }
    is_over(rows)
}

/// Whether a table holds exactly the rows of a part of a book, which rise by key. Nothing is
/// written. Refuses with `BadBook` if the database lacks the table. Works on the tables of each
/// version that has the table.
pub fn holds<S: Alter, L: Listed>(conn: &mut Connection<S>, listed: &L) -> Result<bool, Stop>
    requires rises { IsStrictlySortedBy (row_cmp L.table) (standing (L.places listed.now)) }
    ensures { (v : Version) → Has v L.table
        → Compares S.Store v L.table (standing (L.places listed.now)) conn.old conn.new result }
{
    // No `?` here: it would convert the error, and the contract states which error it is.
    let statement = match prepare(conn, select_of(listed.table())) {
        Ok(statement) => statement,
        Err(stop) => return Err(stop),
    };
    match conn.query_prepared(&statement, &[]) {
        Ok(mut rows) => matches(&mut rows, listed),
        Err(error) => Err(stop_of(error)),
    }
}
