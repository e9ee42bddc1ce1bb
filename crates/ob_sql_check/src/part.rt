//! Compares each table with the part of a book that it holds.
ghost use Rattle.std.specs.Prelude.{◌≡◌, [], ◌∷◌};
ghost use Rattle.ob_time.specs.Calendar.{day_count};
ghost use Rattle.ob_time.specs.Dates.{day_text};
ghost use Rattle.ob_state.specs.Amounts.{amount};
ghost use Rattle.ob_book.specs.Acts.{ActState};
ghost use Rattle.ob_sql_write.specs.Amounts.{amount_rows};
ghost use Rattle.ob_sql_rows.specs.Rows.{meta_row};
ghost use Rattle.ob_sql_rows.specs.Versions.{Has, version_number};
ghost use Rattle.ob_sql_rows.specs.declared.table.Table.{Table as ATable};
ghost use Rattle.ob_sql_rows.specs.declared.version.Version.{Version as AVersion};
ghost use Rattle.ob_sql_read.specs.Parts.{Compares};
ghost use Rattle.ob_sql_check.specs.Parts.{IsPart, parts_in};

use crate::numbered::{Devices, Lives, Nodes, holds_numbered};
use crate::parts::{
    holds_amounts, holds_causes, holds_customers, holds_entries, holds_heading, holds_marks,
};
use ob_base::Stop;
use ob_book::Book;
use ob_sql_read::Layout;
use ob_sql_rows::{Table, Version};
use ob_sweep::Timeline;
use ob_time::Period;
use sqlite::{Alter, Connection};

/// Whether the table `meta` holds exactly the heading of this period and version. Nothing is
/// written.
fn holds_period<S: Alter>(
    conn: &mut Connection<S>,
    period: &Period,
    version: Version,
) -> Result<bool, Stop>
    ensures { (v : AVersion) → Has v ATable.Meta
        → Compares S.Store v ATable.Meta (meta_row (version_number version)
        (day_text period.now.first_day) (day_count period.now) period.now.zone ∷ []) conn.old
        conn.new result }
{
    let days = period.days();
    // No `?` here: it would convert the error, and the contract states which error it is.
    match period.date_text(0) {
        Ok(first_day) => holds_heading(
            conn,
            version.number(),
            first_day.as_bytes(),
            days,
            period.zone_text(),
        ),
        Err(stop) => Err(stop),
    }
}

/// Whether the table of amounts holds those of a book. Nothing is written.
fn holds_posted<S: Alter, T: Timeline>(
    conn: &mut Connection<S>,
    book: &Book<T>,
) -> Result<bool, Stop>
    ensures { (v : AVersion) → Has v ATable.Posting
        → Compares S.Store v ATable.Posting (amount_rows (day_count book.now.state.period)
        (amount book.now.state)) conn.old conn.new result }
{
    holds_amounts(conn, book.postings(), book.period().days())
}

/// Whether a table of a version holds exactly its part of a book. It may be any table of the
/// version except those of commands and of moved amounts. The layout has the nodes and the devices
/// of the book's network. Nothing is written. Refuses with `BadBook` if the database lacks the
/// table.
pub fn holds_part<S: Alter, T: Timeline>(
    conn: &mut Connection<S>,
    book: &Book<T>,
    layout: &Layout,
    version: Version,
    table: Table,
) -> Result<bool, Stop>
    requires part { IsPart table }
    requires has { Has version table }
    requires layout { layout.now ≡ book.now.state.network }
    ensures { (b : ActState) → b.book ≡ book.now.state
        → Compares S.Store version table (parts_in version b table) conn.old conn.new result }
{
    match table {
        Table::Meta => holds_period(conn, book.period(), version),
        Table::Cause => holds_causes(conn, book),
        Table::Node => holds_numbered::<S, Nodes>(conn, layout.nodes()),
        Table::Device => holds_numbered::<S, Devices>(conn, layout.devices()),
        Table::Life => holds_numbered::<S, Lives>(conn, layout.devices()),
        Table::Customer => holds_customers(conn, book.roll()),
        Table::Entry => holds_entries(conn, book.sheet()),
        Table::Mark => holds_marks(conn, book.marks(), book.period().days()),
        Table::Posting => holds_posted(conn, book),
        // Excluded by the precondition.
        Table::Command | Table::Moved => unreachable!(),
    }
}
