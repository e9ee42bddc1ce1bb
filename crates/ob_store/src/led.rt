//! Replays the commands in the tables on a new book.
ghost use Rattle.std.specs.Prelude.{◌≡◌, ◌≤◌, ◌⊎◌, false, true, is_some, IfOk, IfErr, IfSome};
ghost use Rattle.sqlite.specs.Held.{state};
ghost use Rattle.sqlite.specs.State.{HasCleanDisk};
ghost use Rattle.ob_base.specs.Stop.{out_of_memory};
ghost use Rattle.ob_sql_read.specs.Reading.{bad_book};
ghost use Rattle.ob_sql_rows.specs.Schema.{book_schema};
ghost use Rattle.ob_sql_rows.specs.declared.version.Version.{Version as AVersion};
ghost use Rattle.ob_store.specs.Finding.{Finds, HasNoBook};
ghost use Rattle.ob_store.specs.Leading.{HasNoPeriodOf, IsBegun, IsLed, IsLedBy, IsNewBook, LeadsNowhere, MovesAre};
ghost use Rattle.ob_store.specs.Searching.{IsSearchedBy, IsSearchedFor};

use crate::named::{BAD_BOOK, Named, read_named};
use ob_base::Stop;
use ob_book::{Book, next_law};
use ob_record::naming_law;
use ob_sql_read::{Heading, Layout, Progress, are_distinct, holds_moves, lead, reaching_law};
use ob_sql_rows::Version;
use ob_sweep::Timeline;
use ob_time::Period;
use sqlite::{Alter, Connection};
use std::alloc::Global;

/// A book after the replay of the commands in the tables, with the layout of its network.
#[derive(Drop)]
pub(crate) struct Led<T: Timeline> {
    pub(crate) book: Book<T>,
    pub(crate) layout: Layout,
    /// Whether the table of commands numbers them from 1 without gaps.
    pub(crate) counted: bool,
    /// Whether the table of moved amounts holds the changes that the commands make.
    pub(crate) moved: bool,
}

/// Creates a book of the period in the heading.
fn new_book<T: Timeline>(alloc: Global, heading: &Heading) -> Result<Book<T>, Stop>
    ensures new { IfOk result (λ book. IsNewBook heading.now book.state) }
    ensures searches { IfOk result (λ book. book.searches ≤ 1) }
    ensures none { IfErr result (λ stop. stop ≡ bad_book → HasNoPeriodOf heading.now) }
    ensures faults { IfErr result (λ stop. (stop ≡ bad_book) ⊎ (stop ≡ out_of_memory)) }
{
    let period = match Period::from_text(alloc, &heading.first_day, heading.days, &heading.zone) {
        Ok(period) => period,
        Err(Stop::Refused(_)) => return Err(BAD_BOOK),
        Err(stop) => return Err(stop),
    };
    // the heading's date is spelled exactly like this
    match period.date_text(0) {
        Ok(_) => Book::new(alloc, period),
        Err(stop) => Err(stop),
    }
}

/// Creates a book of the heading's period, before the commands, with the layout of its network.
fn begin<T: Timeline>(alloc: Global, named: &Named) -> Result<Led<T>, Stop>
    ensures begun { IfOk result (λ led. IsBegun named.now led.book.state led.layout) }
    ensures searches { IfOk result (λ led. led.book.searches ≤ 1) }
    ensures counted { IfOk result (λ led. led.counted ≡ named.now.counted) }
    ensures moved { IfOk result (λ led. led.moved ≡ false) }
    ensures none { IfErr result (λ stop. stop ≡ bad_book → HasNoPeriodOf named.now.heading) }
    ensures faults { IfErr result (λ stop. (stop ≡ bad_book) ⊎ (stop ≡ out_of_memory)) }
{
    let book = match new_book(alloc, &named.heading) {
        Ok(book) => book,
        Err(stop) => return Err(stop),
    };
    match Layout::new(alloc) {
        Ok(layout) => Ok(Led {
            book,
            layout,
            counted: named.counted,
            moved: false,
        }),
        Err(stop) => Err(stop),
    }
}

/// Replays the commands of a version on a new book, and compares the changes that they make with
/// their table. None if the table has other rows, or the version doesn't accept a command.
pub(crate) fn follow<S: Alter, T: Timeline, P: Progress>(
    alloc: Global,
    conn: &mut Connection<S>,
    named: &Named,
    version: Version,
    progress: &mut P,
) -> Result<Option<Led<T>>, Stop>
    ensures led { IfOk result (λ found. IfSome found
        (λ led. IsLedBy version named.now led.book.state
        × (led.layout ≡ led.book.state.network) × (led.moved ≡ true)
        × (led.counted ≡ named.now.counted))) }
    ensures searches { IfOk result (λ found. IfSome found
        (λ led. IsSearchedBy T.bound named.now led.book.searches)) }
    ensures finds { Finds S.Store version (λ trees found. MovesAre version named.now trees
        (is_some found)) (λ _. HasNoPeriodOf named.now.heading) conn.old conn.new result }
{
    let mut led: Led<T> = match begin(alloc, named) {
        Ok(led) => led,
        Err(stop) => return Err(stop),
    };
    match holds_moves(
        conn,
        &mut led.book,
        &named.commands,
        &mut led.layout,
        version,
        progress,
    ) {
        Ok(true) => {
            led.moved = true;
            Ok(Some(led))
        }
        Ok(false) => Ok(None),
        Err(stop) => Err(stop),
    }
}

/// Replays the commands on a new book without that comparison.
fn again<T: Timeline>(alloc: Global, named: &Named) -> Result<Led<T>, Stop>
    ensures led { IfOk result (λ led. IsLedBy AVersion.Two named.now led.book.state
        × (led.layout ≡ led.book.state.network) × (led.moved ≡ false)
        × (led.counted ≡ named.now.counted)) }
    ensures searches { IfOk result (λ led. IsSearchedBy T.bound named.now led.book.searches) }
    ensures nowhere { IfErr result (λ stop. stop ≡ bad_book → LeadsNowhere named.now) }
    ensures faults { IfErr result (λ stop. (stop ≡ bad_book) ⊎ (stop ≡ out_of_memory)) }
{
    let mut led: Led<T> = match begin(alloc, named) {
        Ok(led) => led,
        Err(stop) => return Err(stop),
    };
    match lead(&mut led.book, &named.commands, &mut led.layout) {
        Ok(true) => Ok(led),
        Ok(false) => Err(BAD_BOOK),
        Err(stop) => Err(stop),
    }
}

/// Reads the heading and the commands and replays them. Refuses with `BadBook` if the heading names
/// no period, a reference occurs twice, or a command isn't accepted in its turn.
pub(crate) fn read_led<S: Alter, T: Timeline, P: Progress>(
    alloc: Global,
    conn: &mut Connection<S>,
    progress: &mut P,
) -> Result<Led<T>, Stop>
    ensures layout { IfOk result (λ led. led.layout ≡ led.book.state.network) }
    ensures finds { Finds S.Store AVersion.Two (λ trees led. IsLed trees led.book.state led.counted
        led.moved) HasNoBook conn.old conn.new result }
    ensures searches { HasCleanDisk (state S.Store conn.new)
        → IfOk result (λ led. conn.old.schema ≡ book_schema
        → IsSearchedFor T.bound (state S.Store conn.old).now.trees led.book.searches) }
{
    next_law();
    naming_law();
    reaching_law();
    let named = match read_named(alloc, conn, Version::Two) {
        Ok(named) => named,
        Err(stop) => return Err(stop),
    };
    match are_distinct(alloc, &named.commands) {
        Ok(true) => {}
        Ok(false) => return Err(BAD_BOOK),
        Err(stop) => return Err(stop),
    }
    match follow(alloc, conn, &named, Version::Two, progress) {
        Ok(Some(led)) => Ok(led),
        Ok(None) => match again(alloc, &named) {
            Ok(led) => Ok(led),
            Err(stop) => Err(stop),
        },
        Err(stop) => Err(stop),
    }
}
