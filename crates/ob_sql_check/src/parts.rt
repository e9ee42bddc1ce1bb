//! Compares each table with the part of a book that it holds.
ghost use Rattle.std.specs.Prelude.{◌≡◌, ◌<◌, ◌+◌, [], ◌∷◌, Some, length, map, slice_get};
ghost use Rattle.ob_sql_rows.specs.declared.table.Table.{Table as ATable};
ghost use Rattle.ob_sql_rows.specs.declared.version.Version.{Version as AVersion};
ghost use Rattle.ob_sql_rows.specs.Versions.{Has};
ghost use Rattle.ob_sql_write.specs.Amounts.{all_keys, amount_rows};
ghost use Rattle.ob_post.specs.Keys.{IsKey};
ghost use Rattle.ob_post.specs.Postings.{amount_of, day_count};
ghost use Rattle.ob_record.specs.Tables.{present};
ghost use Rattle.ob_sql_rows.specs.Rows.{cause_row, customer_row, entry_row, mark_row, meta_row};
ghost use Rattle.ob_sql_read.specs.Parts.{Compares};

use ob_base::Stop;
use ob_book::Book;
use ob_cust::Roll;
use ob_index::Marks;
use ob_post::{CAUSES, Dim, FEEDERS, Postings};
use ob_sheet::Sheet;
use ob_sql_read::{Listed, holds};
use ob_sql_rows::{
    Table, is_cause_row, is_customer_row, is_entry_row, is_mark_row, is_meta_row, is_posting_row,
};
use ob_sweep::Timeline;
use sqlite::{Alter, Connection, Row};

/// The one row of the heading: its version, the first day, the count of days and the zone.
#[derive(Drop)]
struct HeadingRow<'b> {
    version: u32,
    first_day: &'b [u8],
    days: u16,
    zone: &'b [u8],
}

impl<'b> Listed for HeadingRow<'b> {
    ghost use Rattle.std.specs.Prelude.{[], ◌∷◌, Some};
    ghost use Rattle.ob_sql_rows.specs.declared.table.Table.{Table as ATable};
    ghost use Rattle.ob_sql_rows.specs.Rows.{meta_row};

    ghost table = { ATable.Meta };

    ghost places = { λ h. Some (meta_row h.version h.first_day.now h.days h.zone.now) ∷ [] };

    fn table(&self) -> Table {
        Table::Meta
    }

    fn count(&self) -> usize {
        1
    }

    fn has_row(&self, _at: usize) -> bool {
        true
    }

    fn is_row(&self, _at: usize, row: &Row) -> bool {
        is_meta_row(row, self.version, self.first_day, self.days, self.zone)
    }
}

/// Whether the table `meta` holds exactly the heading of this version with this first day, count of
/// days and zone. Nothing is written.
pub(crate) fn holds_heading<S: Alter>(
    conn: &mut Connection<S>,
    version: u32,
    first_day: &[u8],
    days: u16,
    zone: &[u8],
) -> Result<bool, Stop>
    ensures { (v : AVersion) → Has v ATable.Meta
        → Compares S.Store v ATable.Meta (meta_row version first_day.now days zone.now ∷ [])
        conn.old conn.new result }
{
    let heading = HeadingRow {
        version,
        first_day,
        days,
        zone,
    };
    holds(conn, &heading)
}

/// The customers of a register, by number.
#[derive(Drop)]
struct Customers<'b> {
    roll: &'b Roll,
}

impl<'b> Listed for Customers<'b> {
    ghost use Rattle.std.specs.Prelude.{map, Some};
    ghost use Rattle.ob_sql_rows.specs.declared.table.Table.{Table as ATable};
    ghost use Rattle.ob_sql_rows.specs.Rows.{customer_row};

    ghost table = { ATable.Customer };

    ghost places = { λ l. map (λ c. Some (customer_row c)) l.roll.now.customers };

    fn table(&self) -> Table {
        Table::Customer
    }

    fn count(&self) -> usize {
        self.roll.customers().len()
    }

    fn has_row(&self, _at: usize) -> bool {
        true
    }

    fn is_row(&self, at: usize, row: &Row) -> bool {
        is_customer_row(row, self.roll.customers()[at])
    }
}

/// Whether the table of customers holds exactly those of a register. Nothing is written.
pub(crate) fn holds_customers<S: Alter>(conn: &mut Connection<S>, roll: &Roll) -> Result<bool, Stop>
    ensures { (v : AVersion) → Has v ATable.Customer
        → Compares S.Store v ATable.Customer (map customer_row roll.now.customers) conn.old
        conn.new result }
{
    // This call's contract states that the customers rise by number.
    let _ = roll.customers();
    holds(conn, &Customers { roll })
}

/// The entries of a switching log, by number.
#[derive(Drop)]
struct Entries<'b> {
    sheet: &'b Sheet,
}

impl<'b> Listed for Entries<'b> {
    ghost use Rattle.std.specs.Prelude.{map, Some};
    ghost use Rattle.ob_sql_rows.specs.declared.table.Table.{Table as ATable};
    ghost use Rattle.ob_sql_rows.specs.Rows.{entry_row};

    ghost table = { ATable.Entry };

    ghost places = { λ l. map (λ e. Some (entry_row e)) l.sheet.now.entries };

    fn table(&self) -> Table {
        Table::Entry
    }

    fn count(&self) -> usize {
        self.sheet.len()
    }

    fn has_row(&self, _at: usize) -> bool {
        true
    }

    fn is_row(&self, at: usize, row: &Row) -> bool {
        // This call's contract bounds the number of entries.
        let _ = self.sheet.len();
        let Some(entry) = self.sheet.entry(at as u32 + 1) else {
            return false;
        };
        is_entry_row(row, &entry)
    }
}

/// Whether the table of entries holds exactly those of a switching log. Nothing is written.
pub(crate) fn holds_entries<S: Alter>(conn: &mut Connection<S>, sheet: &Sheet) -> Result<bool, Stop>
    ensures { (v : AVersion) → Has v ATable.Entry
        → Compares S.Store v ATable.Entry (map entry_row sheet.now.entries) conn.old conn.new
        result }
{
    // This call's contract states that the entries are numbered.
    let _ = sheet.entry(0);
    holds(conn, &Entries { sheet })
}

/// The causes of a book, by code.
#[derive(Drop)]
struct Causes<'b, T: Timeline> {
    book: &'b Book<T>,
}

impl<'b, T: Timeline> Listed for Causes<'b, T> {
    ghost use Rattle.ob_sql_rows.specs.declared.table.Table.{Table as ATable};
    ghost use Rattle.ob_sql_rows.specs.Rows.{cause_row};
    ghost use Rattle.ob_sql_check.specs.Parts.{placed};

    ghost table = { ATable.Cause };

    ghost places = { λ c. placed cause_row 0 c.book.now.state.causes };

    fn table(&self) -> Table {
        Table::Cause
    }

    fn count(&self) -> usize {
        // This call's contract states that there is a place for each code.
        let _ = self.book.accepted();
        FIRST_FEEDER
    }

    fn has_row(&self, at: usize) -> bool {
        let _ = self.book.accepted();
        self.book.cause_name(at as u8).is_some()
    }

    fn is_row(&self, at: usize, row: &Row) -> bool {
        let _ = self.book.accepted();
        let Some(name) = self.book.cause_name(at as u8) else {
            return false;
        };
        is_cause_row(row, at as u64, &name)
    }
}

/// Whether the table of causes holds exactly those of a book. Nothing is written.
pub(crate) fn holds_causes<S: Alter, T: Timeline>(
    conn: &mut Connection<S>,
    book: &Book<T>,
) -> Result<bool, Stop>
    ensures { (v : AVersion) → Has v ATable.Cause
        → Compares S.Store v ATable.Cause (present cause_row 0 book.now.state.causes) conn.old
        conn.new result }
{
    holds(conn, &Causes { book })
}

/// The major event days, for a period of `days` days.
#[derive(Drop)]
struct Days<'b> {
    marks: &'b Marks,
    days: u16,
    ghost all: { days ≡ length marks.now },
}

impl<'b> Listed for Days<'b> {
    ghost use Rattle.ob_sql_rows.specs.declared.table.Table.{Table as ATable};
    ghost use Rattle.ob_sql_rows.specs.Rows.{mark_row};
    ghost use Rattle.ob_sql_check.specs.Parts.{placed};

    ghost table = { ATable.Mark };

    ghost places = { λ d. placed mark_row 0 d.marks.now };

    fn table(&self) -> Table {
        Table::Mark
    }

    fn count(&self) -> usize {
        usize::from(self.days)
    }

    fn has_row(&self, at: usize) -> bool {
        self.marks.is_marked(day_at(at, self.days))
    }

    fn is_row(&self, at: usize, row: &Row) -> bool {
        let Some(engineer) = self.marks.engineer(day_at(at, self.days)) else {
            return false;
        };
        is_mark_row(row, at as u64, &engineer)
    }
}

/// The number of the day at a place, in a period of `days` days.
fn day_at(at: usize, days: u16) -> u16
    requires { at < days }
    ensures { result ≡ at }
{
    prove!(at < days as usize);
    at as u16
}

/// Whether the table `mark` holds exactly these major event days, for a period of `days` days.
/// Nothing is written.
pub(crate) fn holds_marks<S: Alter>(
    conn: &mut Connection<S>,
    marks: &Marks,
    days: u16,
) -> Result<bool, Stop>
    requires { days ≡ length marks.now }
    ensures { (v : AVersion) → Has v ATable.Mark
        → Compares S.Store v ATable.Mark (present mark_row 0 marks.now) conn.old conn.new result }
{
    holds(conn, &Days { marks, days })
}

/// The amounts under all keys, for a period of `days` days.
#[derive(Drop)]
struct Amounts<'b> {
    postings: &'b Postings,
    days: u16,
    ghost all: { days ≡ day_count postings.now },
}

impl<'b> Listed for Amounts<'b> {
    ghost use Rattle.std.specs.Prelude.{map, Some};
    ghost use Rattle.ob_sql_rows.specs.declared.table.Table.{Table as ATable};
    ghost use Rattle.ob_sql_write.specs.Amounts.{all_keys, amount_row};
    ghost use Rattle.ob_post.specs.Postings.{amount_of};

    ghost table = { ATable.Posting };

    ghost places = { λ a. map (λ k. Some (amount_row (amount_of a.postings.now) k)) (all_keys a.days) };

    fn table(&self) -> Table {
        Table::Posting
    }

    fn count(&self) -> usize {
        FIRST_DAY + usize::from(self.days)
    }

    fn has_row(&self, _at: usize) -> bool {
        true
    }

    fn is_row(&self, at: usize, row: &Row) -> bool {
        let (dim, key) = key_at(at, self.days);
        is_posting_row(
            row,
            u64::from(dim.number()),
            u64::from(key),
            self.postings.amount(dim, key),
        )
    }
}

/// The number of causes. They come before the feeders.
const FIRST_FEEDER: usize = CAUSES as usize;

/// The number of causes and feeders together. They come before the days.
const FIRST_DAY: usize = FIRST_FEEDER + FEEDERS as usize;

/// Returns the key at a place among all keys, for a period of `days` days: the causes from 0, then
/// the feeders from 1, then the days from 0.
fn key_at(at: usize, days: u16) -> (Dim, u16)
    requires { at < 319 + days }
    ensures key { slice_get (all_keys days) at ≡ Some (result.0, result.1) }
    ensures is { IsKey days result.0 result.1 }
{
    if at < FIRST_FEEDER {
        (Dim::Cause, at as u16)
    } else if at < FIRST_DAY {
        (Dim::Feeder, (at - FIRST_FEEDER) as u16 + 1)
    } else {
        (Dim::Day, (at - FIRST_DAY) as u16)
    }
}

/// Whether the table of amounts holds exactly these amounts, for a period of `days` days. Nothing
/// is written.
pub(crate) fn holds_amounts<S: Alter>(
    conn: &mut Connection<S>,
    postings: &Postings,
    days: u16,
) -> Result<bool, Stop>
    requires { days ≡ day_count postings.now }
    ensures { (v : AVersion) → Has v ATable.Posting
        → Compares S.Store v ATable.Posting (amount_rows days (amount_of postings.now)) conn.old
        conn.new result }
{
    holds(conn, &Amounts { postings, days })
}
