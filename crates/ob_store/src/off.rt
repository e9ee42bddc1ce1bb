//! Finds the first table that differs from a replayed book.
ghost use Rattle.std.specs.Prelude.{◌≡◌};
ghost use Rattle.ob_book.specs.Acts.{ActState};
ghost use Rattle.ob_sql_check.specs.Parts.{IsPart};
ghost use Rattle.ob_sql_rows.specs.declared.version.Version.{Version as AVersion};
ghost use Rattle.ob_store.specs.Finding.{Finds};
ghost use Rattle.ob_store.specs.Differing.{IsFirstOff, IsFirstOffOf, IsOff, NoneSo};

use crate::led::Led;
use ob_base::Stop;
use ob_sql_check::holds_part;
use ob_sql_rows::{Table, Version};
use ob_sweep::Timeline;
use sqlite::{Alter, Connection};

/// The tables before that of commands, in their order.
const FIRST_PARTS: [Table; 8] = [
    Table::Meta,
    Table::Cause,
    Table::Node,
    Table::Device,
    Table::Life,
    Table::Customer,
    Table::Entry,
    Table::Mark,
];

/// Returns the table if its rows aren't those of the book. It is neither the table of commands nor
/// that of moved amounts.
fn part_off<S: Alter, T: Timeline>(
    conn: &mut Connection<S>,
    led: &Led<T>,
    table: Table,
) -> Result<Option<Table>, Stop>
    requires part { IsPart table }
    requires layout { led.now.layout ≡ led.now.book.state.network }
    ensures { (b : ActState) → b.book ≡ led.now.book.state
        → Finds S.Store AVersion.Two (IsOff b table) NoneSo conn.old conn.new result }
{
    match holds_part(conn, &led.book, &led.layout, Version::Two, table) {
        Ok(true) => Ok(None),
        Ok(false) => Ok(Some(table)),
        Err(stop) => Err(stop),
    }
}

/// Returns the first table before that of commands whose rows aren't those of the book.
fn first_part_off<S: Alter, T: Timeline>(
    conn: &mut Connection<S>,
    led: &Led<T>,
) -> Result<Option<Table>, Stop>
    requires layout { led.now.layout ≡ led.now.book.state.network }
    ensures { (b : ActState) → b.book ≡ led.now.book.state
        → Finds S.Store AVersion.Two (IsFirstOffOf 8 b) NoneSo conn.old conn.new result }
{
    'parts: for at in 0..FIRST_PARTS.len() {
        match part_off(conn, led, FIRST_PARTS[at]) {
            Ok(None) => {}
            Ok(Some(table)) => return Ok(Some(table)),
            Err(stop) => return Err(stop),
        }
    }
    Ok(None)
}

/// Returns the first of the eleven tables, in their order, whose rows aren't those of a replayed
/// book. The book's commands are those of the table of commands. Nothing is written.
pub(crate) fn first_off<S: Alter, T: Timeline>(
    conn: &mut Connection<S>,
    led: &Led<T>,
) -> Result<Option<Table>, Stop>
    requires layout { led.now.layout ≡ led.now.book.state.network }
    ensures { (b : ActState) → b.book ≡ led.now.book.state
        → Finds S.Store AVersion.Two (IsFirstOff b led.now.counted led.now.moved) NoneSo conn.old
        conn.new result }
{
    match first_part_off(conn, led) {
        Ok(None) => {}
        Ok(Some(table)) => return Ok(Some(table)),
        Err(stop) => return Err(stop),
    }
    if !led.counted {
        return Ok(Some(Table::Command));
    }
    if !led.moved {
        return Ok(Some(Table::Moved));
    }
    part_off(conn, led, Table::Posting)
}
