//! Loads the book in the tables, and finds the first table that differs from the book.
ghost use Rattle.std.specs.Prelude.{◌≡◌, IfOk, Ok};
ghost use Rattle.sqlite.specs.Held.{state};
ghost use Rattle.sqlite.specs.State.{HasCleanDisk};
ghost use Rattle.ob_sql_rows.specs.Schema.{book_schema};
ghost use Rattle.ob_sql_rows.specs.declared.version.Version.{Version as AVersion};
ghost use Rattle.ob_store.specs.Finding.{Finds, HasNoBook};
ghost use Rattle.ob_store.specs.Keeping.{Answers};
ghost use Rattle.ob_store.specs.Leading.{IsLed};
ghost use Rattle.ob_store.specs.Loading.{Finding, HoldsNoBook, Holding};
ghost use Rattle.ob_store.specs.Searching.{IsSearchedFor};
ghost use Rattle.ob_store.specs.Versions.{Tells};

use crate::led::{Led, read_led};
use crate::named::BAD_BOOK;
use crate::off::first_off;
use crate::version::check_version;
use ob_base::{Fault, Stop};
use ob_book::Book;
use ob_sql_read::{Progress, Silent, Work, are_apart};
use ob_sql_rows::Table;
use ob_sweep::Timeline;
use sqlite::{Alter, Connection};
use std::alloc::Global;

/// Returns the first table that differs from the book of the period and the commands in the tables.
/// Refuses a book of version 1 first.
pub(crate) fn audit_on<S: Alter, T: Timeline>(
    alloc: Global,
    conn: &mut Connection<S>,
) -> Result<Option<Table>, Stop>
    ensures tells { Tells S.Store Finding HasNoBook conn.old conn.new result }
    ensures answers { Answers S.Store conn.old conn.new result }
{
    match check_version(conn) {
        Ok(()) => find_off::<S, T>(alloc, conn),
        Err(stop) => Err(stop),
    }
}

/// Returns the first table that differs from the book of the period and the commands in the tables.
fn find_off<S: Alter, T: Timeline>(
    alloc: Global,
    conn: &mut Connection<S>,
) -> Result<Option<Table>, Stop>
    ensures { Finds S.Store AVersion.Two Finding HasNoBook conn.old conn.new result }
{
    let led: Led<T> = match read_led(alloc, conn, &mut Silent) {
        Ok(led) => led,
        Err(stop) => return Err(stop),
    };
    first_off(conn, &led)
}

/// Refuses a replayed book as `BadBook` if the tables in the store aren't its tables. Nothing is
/// written.
fn check_led<S: Alter, T: Timeline>(conn: &mut Connection<S>, led: &Led<T>) -> Result<(), Stop>
    requires layout { led.now.layout ≡ led.now.book.state.network }
    ensures clean { HasCleanDisk (state S.Store conn.new) → HasCleanDisk (state S.Store conn.old) }
    // if the replayed book was read from the same tables before
    ensures finds { (first : _) → Finds S.Store AVersion.Two
        (λ trees l. IsLed trees l.book.state l.counted l.moved) HasNoBook first conn.old
        (Ok led.now) → Finds S.Store AVersion.Two (λ trees done. Holding trees led.now.book.state)
        HoldsNoBook first conn.new result }
{
    match first_off(conn, led) {
        Ok(None) => {}
        Ok(Some(_)) => return Err(BAD_BOOK),
        Err(stop) => return Err(stop),
    }
    match are_apart(conn) {
        Ok(true) => Ok(()),
        // two rows have the same row number: the file is corrupt
        Ok(false) => Err(Stop::Fault(Fault::Store)),
        Err(stop) => Err(stop),
    }
}

/// Returns the book in the eleven tables. Refuses a book of version 1 first.
pub(crate) fn load_on<S: Alter, T: Timeline, P: Progress>(
    alloc: Global,
    conn: &mut Connection<S>,
    progress: &mut P,
) -> Result<Book<T>, Stop>
    ensures tells { Tells S.Store (λ trees book. Holding trees book.state) HoldsNoBook conn.old
        conn.new result }
    ensures answers { Answers S.Store conn.old conn.new result }
    ensures searches { HasCleanDisk (state S.Store conn.new)
        → IfOk result (λ book. conn.old.schema ≡ book_schema
        → IsSearchedFor T.bound (state S.Store conn.old).now.trees book.searches) }
{
    match check_version(conn) {
        Ok(()) => load_tables(alloc, conn, progress),
        Err(stop) => Err(stop),
    }
}

/// Returns the book in the tables.
fn load_tables<S: Alter, T: Timeline, P: Progress>(
    alloc: Global,
    conn: &mut Connection<S>,
    progress: &mut P,
) -> Result<Book<T>, Stop>
    ensures finds { Finds S.Store AVersion.Two (λ trees book. Holding trees book.state) HoldsNoBook
        conn.old conn.new result }
    ensures searches { HasCleanDisk (state S.Store conn.new)
        → IfOk result (λ book. conn.old.schema ≡ book_schema
        → IsSearchedFor T.bound (state S.Store conn.old).now.trees book.searches) }
{
    let led: Led<T> = match read_led(alloc, conn, progress) {
        Ok(led) => led,
        Err(stop) => return Err(stop),
    };
    progress.begin(Work::Tables, 0);
    match check_led(conn, &led) {
        Ok(()) => Ok(led.book),
        Err(stop) => Err(stop),
    }
}
