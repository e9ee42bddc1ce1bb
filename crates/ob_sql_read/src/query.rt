//! Queries the rows of a table.
ghost use Rattle.std.specs.Prelude.{◌≡◌, ◌≢◌, ◌↔◌, false, [], IfOk, IfErr};
ghost use Rattle.sqlite.specs.Held.{state};
ghost use Rattle.sqlite.specs.Schema.{Schema};
ghost use Rattle.sqlite.specs.State.{HasCleanDisk, IsUnchanged, Shown, Survives};
ghost use Rattle.ob_base.specs.Stop.{out_of_memory};
ghost use Rattle.ob_sql_rows.specs.declared.version.Version.{Version};
ghost use Rattle.ob_sql_rows.specs.Rows.{Tables};
ghost use Rattle.ob_sql_rows.specs.Queries.{IsAlwaysAnswered};
ghost use Rattle.ob_sql_rows.specs.Steps.{HasFaultCause};
ghost use Rattle.ob_sql_rows.specs.Versions.{schema_of};
ghost use Rattle.ob_sql_write.specs.Keeps.{KeepsIn};
ghost use Rattle.ob_sql_read.specs.Listing.{Listing, IsListingOver, Lists, ShowsNoWrite};
ghost use Rattle.ob_sql_read.specs.Reading.{HasNoMeaning, IsInputError, IsMissed, IsReadFault, bad_book};

use ob_base::{Fault, Refusal, Stop};
use ob_sql_rows::stop_of;
use sqlite::{Alter, Connection, Error, ErrorCode, Row, Statement};

/// Returns why a query couldn't be prepared: `BadBook` if the tables lack what it names, or else a
/// fault of the store.
fn stop_of_prepare(error: Error) -> Stop
    ensures faults { IsReadFault result }
    ensures foreign { result ≡ bad_book → IsInputError error }
    ensures missed { IsInputError error → result ≡ bad_book }
    ensures memory { (error ≡ Error.SqliteFailure ErrorCode.OutOfMemory) ↔ (result ≡ out_of_memory) }
{
    match error {
        Error::SqlInputError(_) => Stop::Refused(Refusal::BadBook),
        Error::SqliteFailure(ErrorCode::OutOfMemory) => Stop::Fault(Fault::OutOfMemory),
        _ => Stop::Fault(Fault::Store),
    }
}

/// Prepares a query. Refuses with `BadBook` if the tables lack what it names.
pub(crate) fn prepare<S: Alter>(conn: &mut Connection<S>, sql: &str) -> Result<Statement, Stop>
    ensures mode { conn.old.in_transaction ≡ false → conn.new.in_transaction ≡ false }
    ensures survives { Survives (state S.Store conn.old) (state S.Store conn.new) (λ _. ⊥) }
    ensures kept { (v : Version) (t : Tables) → KeepsIn v (state S.Store conn.old) t
        → KeepsIn v (state S.Store conn.new) t }
    ensures faults { IfErr result IsReadFault }
    ensures cause { HasCleanDisk (state S.Store conn.new) → IsAlwaysAnswered conn.old.schema sql.now []
        → HasFaultCause (state S.Store conn.old) (state S.Store conn.new) result }
    ensures foreign { HasCleanDisk (state S.Store conn.new)
        → IfErr result (λ stop. stop ≡ bad_book → HasNoMeaning conn.old.schema sql.now
        × IsUnchanged (state S.Store conn.old) (state S.Store conn.new)) }
    ensures missed { HasCleanDisk (state S.Store conn.new) → HasNoMeaning conn.old.schema sql.now
        → IsMissed (state S.Store conn.old) (state S.Store conn.new) result }
    ensures prepared { HasCleanDisk (state S.Store conn.new)
        → IfOk result (λ statement. (statement.text ≡ sql.now)
        × IsUnchanged (state S.Store conn.old) (state S.Store conn.new)) }
{
    match conn.prepare(sql) {
        Ok(statement) => Ok(statement),
        Err(error) => Err(stop_of_prepare(error)),
    }
}

/// Returns all rows of a table by rising key. Meant for tables of a few rows.
pub(crate) fn list_all<S: Alter>(conn: &mut Connection<S>, sql: &str) -> Result<Vec<Row>, Stop>
    ensures mode { conn.old.in_transaction ≡ false → conn.new.in_transaction ≡ false }
    ensures clean { HasCleanDisk (state S.Store conn.new) → HasCleanDisk (state S.Store conn.old) }
    ensures faults { IfErr result IsReadFault }
    ensures cause { HasCleanDisk (state S.Store conn.new) → IsAlwaysAnswered conn.old.schema sql.now []
        → HasFaultCause (state S.Store conn.old) (state S.Store conn.new) result }
    ensures foreign { HasCleanDisk (state S.Store conn.new)
        → IfErr result (λ stop. stop ≡ bad_book → (schema : Schema) (l : Listing)
        → IsListingOver schema l → l.text ≡ sql.now → conn.old.schema ≢ schema) }
    ensures missed { HasNoMeaning conn.old.schema sql.now
        → Survives (state S.Store conn.old) (state S.Store conn.new) (λ _. ⊥)
        × (HasCleanDisk (state S.Store conn.new) → IsMissed (state S.Store conn.old)
        (state S.Store conn.new) result) }
    ensures survives { (schema : Schema) (l : Listing) → IsListingOver schema l → l.text ≡ sql.now
        → Survives (state S.Store conn.old) (state S.Store conn.new) (λ _. ⊥) }
    ensures kept { (v : Version) (l : Listing) → IsListingOver (schema_of v) l → l.text ≡ sql.now
        → (t : Tables) → KeepsIn v (state S.Store conn.old) t
        → KeepsIn v (state S.Store conn.new) t }
    ensures shown { HasCleanDisk (state S.Store conn.new) → ShowsNoWrite sql.now
        → IfOk result (λ rows. Shown sql.now [] (state S.Store conn.old) (state S.Store conn.new)
        rows.items) }
    ensures listed { HasCleanDisk (state S.Store conn.new)
        → IfOk result (λ rows. (schema : Schema) (l : Listing) → IsListingOver schema l
        → l.text ≡ sql.now → conn.old.schema ≡ schema
        → Lists l (state S.Store conn.old).now rows.items
        × IsUnchanged (state S.Store conn.old) (state S.Store conn.new)) }
{
    // No `?` here: it would convert the error, and the contract states which error it is.
    let statement = match prepare(conn, sql) {
        Ok(statement) => statement,
        Err(stop) => return Err(stop),
    };
    match statement.query_all(conn, &[]) {
        Ok(rows) => Ok(rows),
        Err(error) => Err(stop_of(error)),
    }
}
