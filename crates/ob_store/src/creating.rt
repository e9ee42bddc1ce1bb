//! Creates a new book, in an empty database and in memory.
ghost use Rattle.std.specs.Prelude.{◌≡◌, ◌≤◌, false, IfOk, OnOk};
ghost use Rattle.sqlite.specs.Held.{state};
ghost use Rattle.sqlite.specs.State.{HasCleanDisk};
ghost use Rattle.ob_sql_write.specs.Keeps.{KeepsNumbers};
ghost use Rattle.ob_store.specs.Creating.{Creates, HasCreateCause};

use ob_base::{Fault, Stop};
use ob_book::Book;
use ob_record::reached_law;
use ob_sql_write::commit_new;
use ob_sweep::Timeline;
use ob_time::Period;
use sqlite::{Alter, Connection};
use std::alloc::Global;

/// Creates the tables of a new book in an empty database, and returns the book.
pub(crate) fn create_on<S: Alter, T: Timeline>(
    alloc: Global,
    conn: &mut Connection<S>,
    first: &[u8],
    days: u16,
    zone: &[u8],
) -> Result<Book<T>, Stop>
    requires mode { conn.old.in_transaction ≡ false }
    ensures mode { conn.new.in_transaction ≡ false }
    ensures clean { HasCleanDisk (state S.Store conn.new) → HasCleanDisk (state S.Store conn.old) }
    ensures limit { conn.new.step_limit ≡ conn.old.step_limit }
    ensures creates { Creates S.Store conn.old conn.new first.now days zone.now result }
    // `Fault::Store` is returned only if the store failed, or rolled the book's rows back
    ensures cause { HasCleanDisk (state S.Store conn.new)
        → HasCreateCause S.Store conn.old conn.new first.now days zone.now result }
    ensures numbered { OnOk result (KeepsNumbers (state S.Store conn.new)) }
    ensures searches { IfOk result (λ book. book.searches ≤ 1) }
{
    reached_law();
    let period = match Period::from_text(alloc, first, days, zone) {
        Ok(period) => period,
        Err(stop) => return Err(stop),
    };
    let date = match period.date_text(0) {
        Ok(date) => date,
        Err(stop) => return Err(stop),
    };
    let book = match Book::new(alloc, period) {
        Ok(book) => book,
        Err(stop) => return Err(stop),
    };
    match commit_new(conn, date.as_bytes(), days, zone) {
        Ok(()) => Ok(book),
        Err(stop) => Err(stop),
    }
}
