//! Commits the tables of a new book in one transaction.
ghost use Rattle.std.specs.Prelude.{◌≡◌, ◌≢◌, ◌↔◌, ◌⊎◌, Err, false, IsTrue, OnOk, IfErr};
ghost use Rattle.sqlite.specs.Held.{state};
ghost use Rattle.sqlite.specs.State.{HasCleanDisk, IsLive, Survives};
ghost use Rattle.ob_sql_rows.specs.Schema.{no_schema};
ghost use Rattle.ob_sql_rows.specs.Rows.{Tables};
ghost use Rattle.ob_sql_rows.specs.Rules.{IsShort};
ghost use Rattle.ob_sql_rows.specs.Steps.{IsStoreFault};
ghost use Rattle.ob_sql_write.specs.Keeps.{HasCommitCause, Keeps, KeepsNumbers};
ghost use Rattle.ob_sql_write.specs.NewBook.{new_tables};
ghost use Rattle.ob_sql_write.specs.Begins.{Stays, StaysOrBegins, Begins};

use crate::writing::write_new;
use ob_base::{Fault, Refusal, Stop};
use sqlite::{Alter, Connection};

/// Creates the tables of a new book in an empty database, all or none. Refuses with `BadBook` if
/// the database holds a table, an index or a view.
pub fn commit_new<S: Alter>(
    conn: &mut Connection<S>,
    first_day: &[u8],
    days: u16,
    zone: &[u8],
) -> Result<(), Stop>
    requires mode { conn.old.in_transaction ≡ false }
    ensures mode { conn.new.in_transaction ≡ false }
    ensures faults { IfErr result (λ stop. (stop ≡ Stop.Refused Refusal.BadBook)
        ⊎ IsStoreFault stop) }
    ensures refused { (result ≡ Err (Stop.Refused Refusal.BadBook))
        ↔ ((state S.Store conn.old).now.schema ≢ no_schema) }
    ensures empty { result ≢ Err (Stop.Refused Refusal.BadBook)
        → (state S.Store conn.old).now.schema ≡ no_schema }
    ensures live { HasCleanDisk (state S.Store conn.new)
        → OnOk result (IsTrue (state S.Store conn.old).is_open) }
    ensures done { OnOk result (Keeps (state S.Store conn.new)
        (new_tables first_day.now days zone.now)) }
    ensures same { IfErr result (λ stop. stop ≢ Stop.Fault Fault.Store
        → Stays (state S.Store conn.old) (state S.Store conn.new)) }
    ensures kept { IfErr result (λ stop. stop ≢ Stop.Fault Fault.Store
        → (t : Tables) → Keeps (state S.Store conn.old) t → Keeps (state S.Store conn.new) t) }
    ensures either { IfErr result (λ stop. StaysOrBegins (state S.Store conn.old)
        (state S.Store conn.new) (new_tables first_day.now days zone.now)) }
    // if the texts are short enough, `Fault::Store` means that the store failed or rolled the
    // transaction back
    ensures cause { IfErr result (λ stop. stop ≡ Stop.Fault Fault.Store → HasCleanDisk (state S.Store conn.new)
        → IsShort first_day.now → IsShort zone.now
        → HasCommitCause S.Store (state S.Store conn.old) (state S.Store conn.new)
        (new_tables first_day.now days zone.now)) }
    ensures numbered { OnOk result (KeepsNumbers (state S.Store conn.new)) }
    // a crash leaves what it could leave before, or, if the database was empty, the tables of a new
    // book
    ensures survives { Survives (state S.Store conn.old) (state S.Store conn.new)
        (Begins (state S.Store conn.old) (new_tables first_day.now days zone.now)) }
{
    if !is_empty(conn) {
        return Err(Stop::Refused(Refusal::BadBook));
    }
    // outside a transaction a connection shows what was committed
    prove!(conn.is_autocommit());
    let mut tx = conn.transaction();
    write_new(&mut tx, first_day, days, zone)?;
    match tx.commit() {
        Ok(()) => Ok(()),
        Err(_) => Err(Stop::Fault(Fault::Store)),
    }
}

/// Whether the database holds no table, no index and no view.
fn is_empty<S: Alter>(conn: &Connection<S>) -> bool
    ensures empty { IsTrue result ↔ ((state S.Store conn.now).now.schema ≡ no_schema) }
    // an open connection shows a complete database
    ensures live { IsLive (state S.Store conn.now) }
{
    let schema = conn.schema();
    schema.tables.is_empty() && schema.indexes.is_empty() && schema.views.is_empty()
}
