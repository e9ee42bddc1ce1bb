//! Reads the commands back from the rows of their table.
ghost use Rattle.std.specs.Prelude.{◌≡◌, ◌≢◌, ◌↔◌, pos, false, List, [], Some, IsTrue, IfOk, IfErr, OnOk};
ghost use Rattle.sqlite.specs.Order.{Row as ARow};
ghost use Rattle.sqlite.specs.Tree.{rowid};
ghost use Rattle.sqlite.specs.Held.{state};
ghost use Rattle.sqlite.specs.Given.{HasGiven};
ghost use Rattle.sqlite.specs.State.{HasCleanDisk, IsUnchanged, Survives};
ghost use Rattle.ob_base.specs.Stop.{out_of_memory};
ghost use Rattle.ob_command.specs.declared.command.Command.{Command as ACommand};
ghost use Rattle.ob_sql_rows.specs.Versions.{schema_of};
ghost use Rattle.ob_sql_rows.specs.declared.version.Version.{Version as AVersion};
ghost use Rattle.ob_sql_rows.specs.Rows.{Columns, Tables};
ghost use Rattle.ob_sql_rows.specs.Steps.{HasFaultCause, IsStoreFault};
ghost use Rattle.ob_sql_rows.specs.declared.table.Table.{Table as ATable};
ghost use Rattle.ob_sql_write.specs.Keeps.{KeepsIn};
ghost use Rattle.ob_record.specs.Tables.{Shows};
ghost use Rattle.ob_sql_read.specs.declared.filed.Filed.{Filed as AFiled};
ghost use Rattle.ob_sql_read.specs.Faults.{HasNoMeaning, IsMissed, IsReadFault, bad_book};
ghost use Rattle.ob_sql_read.specs.Listing.{referenced};
ghost use Rattle.ob_sql_read.specs.Ordered.{row_with};
ghost use Rattle.ob_sql_read.specs.Reading.{AreFiled, IsCommands, IsFiled, IsNext, Stands, command_listing};
ghost use Rattle.ob_sql_read.specs.Versioned.{IsCommandIn, body_in};

use crate::apart::higher_in;
use crate::columns::text_at;
use crate::filed::Filed;
use crate::query::prepare;
use crate::rows::{advance, is_over};
use ob_base::{Ref, Stop};
use ob_book::MOST_COMMANDS;
use ob_command::{Command, read_body};
use ob_sql_rows::{Table, Version, select_of, stop_of};
use ob_upgrade::read_old_body;
use sqlite::{Alter, Connection, Row, Rows};
use std::alloc::Global;

/// Commands in the order of the numbers of their rows.
#[derive(Drop)]
pub struct Commands {
    /// The commands, under their references.
    pub commands: Vec<Filed>,
    /// Whether their numbers are 1, 2, 3 and so on, with none left out.
    pub counted: bool,
}

/// Returns the command with this body text in a version; None if there is none. Fails only if an
/// allocation fails.
fn read_body_in(alloc: Global, text: &[u8], version: Version) -> Result<Option<Command>, Stop>
    ensures read { IfOk result (λ found. (c : ACommand)
        → (found ≡ Some c) ↔ (IsCommandIn version c × (text.now ≡ body_in version c))) }
    ensures err { IfErr result (λ stop. stop ≡ out_of_memory) }
{
    match version {
        Version::One => read_old_body(alloc, text),
        Version::Two => Ok(read_body(text)),
    }
}

/// Returns the command in this row in a version, whatever the row's number; None if there is none.
/// Fails only if an allocation fails.
fn filed_in(alloc: Global, row: &Row, version: Version) -> Result<Option<Filed>, Stop>
    ensures filed { IfOk result (λ found. (f : AFiled)
        → (found ≡ Some f) ↔ (IsFiled version f × (row.now
        ≡ row_with version (rowid row.now) (referenced f)))) }
    ensures err { IfErr result (λ stop. stop ≡ out_of_memory) }
{
    if row.column_count() != 3 {
        return Ok(None);
    }
    let Some(text) = text_at(row, 1) else {
        return Ok(None);
    };
    let Some(reference) = Ref::read(text) else {
        return Ok(None);
    };
    let Some(body) = text_at(row, 2) else {
        return Ok(None);
    };
    let Some(command) = read_body_in(alloc, body, version)? else {
        return Ok(None);
    };
    Ok(Some(Filed { reference, command }))
}

/// The next item in the table of commands.
enum Next {
    /// A command, with a number above the last.
    Higher(i64, Filed),
    /// A row that is no command, or whose number isn't above the last.
    Other,
    /// No row.
    End,
}

/// Reads the next item after the last number.
fn next_filed<S: Alter>(
    alloc: Global,
    rows: &mut Rows<'_, S>,
    last: Option<i64>,
    version: Version,
) -> Result<Next, Stop>
    ensures same_reference { rows.new.conn.ghost_name ≡ rows.old.conn.ghost_name }
    ensures survives { Survives (state S.Store rows.old.conn.now) (state S.Store rows.new.conn.now)
        (λ _. ⊥) }
    ensures kept { (v : AVersion) (t : Tables) → KeepsIn v (state S.Store rows.old.conn.now) t
        → KeepsIn v (state S.Store rows.new.conn.now) t }
    ensures mode { rows.old.conn.now.in_transaction ≡ false
        → rows.new.conn.now.in_transaction ≡ false }
    ensures faults { IfErr result IsStoreFault }
    ensures cause { HasCleanDisk (state S.Store rows.new.conn.now)
        → (v : AVersion) → (state S.Store rows.old.conn.now).now.schema ≡ schema_of v
        → (given : List ARow) → HasGiven S.Store command_listing.text [] rows.old.conn.now given
        → HasFaultCause (state S.Store rows.old.conn.now) (state S.Store rows.new.conn.now) result }
    ensures valid { IfOk result (IsNext version last) }
    ensures same { HasCleanDisk (state S.Store rows.new.conn.now)
        → OnOk result (IsUnchanged (state S.Store rows.old.conn.now)
        (state S.Store rows.new.conn.now)) }
    ensures stands { HasCleanDisk (state S.Store rows.new.conn.now) → IfOk result (λ next.
        (v : AVersion) → (state S.Store rows.old.conn.now).now.schema ≡ schema_of v
        → (given : List ARow) → HasGiven S.Store command_listing.text [] rows.old.conn.now given
        → Stands S.Store version last next rows.new.conn.now given) }
{
    advance(rows)?;
    let Some(row) = rows.get() else {
        return Ok(Next::End);
    };
    let Some(number) = higher_in(row, last) else {
        return Ok(Next::Other);
    };
    let Some(filed) = filed_in(alloc, row, version)? else {
        return Ok(Next::Other);
    };
    Ok(Next::Higher(number, filed))
}

/// Whether the numbers still count from 1 without gaps, given whether they did so far, the next
/// number, and the number that is due.
fn goes_on_counting(counted: bool, number: i64, due: u32) -> bool
    ensures { IsTrue result ↔ (IsTrue counted × (number ≡ pos due)) }
{
    counted && number == i64::from(due)
}

/// Returns the commands that the rows hold.
fn filed_rows<S: Alter>(
    alloc: Global,
    rows: &mut Rows<'_, S>,
    version: Version,
) -> Result<Option<Commands>, Stop>
    ensures same_reference { rows.new.conn.ghost_name ≡ rows.old.conn.ghost_name }
    ensures survives { Survives (state S.Store rows.old.conn.now) (state S.Store rows.new.conn.now)
        (λ _. ⊥) }
    ensures kept { (v : AVersion) (t : Tables) → KeepsIn v (state S.Store rows.old.conn.now) t
        → KeepsIn v (state S.Store rows.new.conn.now) t }
    ensures mode { rows.old.conn.now.in_transaction ≡ false
        → rows.new.conn.now.in_transaction ≡ false }
    ensures faults { IfErr result IsStoreFault }
    ensures cause { HasCleanDisk (state S.Store rows.new.conn.now)
        → IsTrue (state S.Store rows.old.conn.now).is_open
        → (v : AVersion) → (state S.Store rows.old.conn.now).now.schema ≡ schema_of v
        → HasGiven S.Store command_listing.text [] rows.old.conn.now []
        → HasFaultCause (state S.Store rows.old.conn.now) (state S.Store rows.new.conn.now) result }
    ensures valid { IfOk result (AreFiled version) }
    ensures same { HasCleanDisk (state S.Store rows.new.conn.now) → OnOk result
        (IsTrue (state S.Store rows.old.conn.now).is_open
        → IsUnchanged (state S.Store rows.old.conn.now) (state S.Store rows.new.conn.now)) }
    ensures read { HasCleanDisk (state S.Store rows.new.conn.now)
        → IfOk result (λ found. IsTrue (state S.Store rows.old.conn.now).is_open → (v : AVersion)
        → (state S.Store rows.old.conn.now).now.schema ≡ schema_of v
        → HasGiven S.Store command_listing.text [] rows.old.conn.now [] → (shown : List Columns)
        → Shows (state S.Store rows.old.conn.now).now.trees ATable.Command shown
        → IsCommands version found shown) }
{
    let mut commands = Vec::new(alloc);
    let mut counted = true;
    let mut last = None;
    'commands: for at in 0..MOST_COMMANDS {
        match next_filed(alloc, rows, last, version)? {
            Next::Higher(number, filed) => {
                commands.push(filed)?;
                counted = goes_on_counting(counted, number, at + 1);
                last = Some(number);
            }
            Next::Other => return Ok(None),
            Next::End => return Ok(Some(Commands { commands, counted })),
        }
    }
    if is_over(rows)? {
        Ok(Some(Commands { commands, counted }))
    } else {
        Ok(None)
    }
}

/// Reads the commands of the table `cmd`, with the body texts of a version, in the order of their
/// numbers. Also returns whether the numbers count from 1 without gaps. None if the rows aren't
/// commands of the version under references, with rising numbers, or if there are more of them than
/// a book may accept. Refuses with `BadBook` if the database lacks the table. The tables may be
/// those of either version.
pub fn read_commands<S: Alter>(
    alloc: Global,
    conn: &mut Connection<S>,
    version: Version,
) -> Result<Option<Commands>, Stop>
    ensures mode { conn.old.in_transaction ≡ false → conn.new.in_transaction ≡ false }
    ensures survives { Survives (state S.Store conn.old) (state S.Store conn.new) (λ _. ⊥) }
    ensures kept { (v : AVersion) (t : Tables) → KeepsIn v (state S.Store conn.old) t
        → KeepsIn v (state S.Store conn.new) t }
    ensures clean { HasCleanDisk (state S.Store conn.new) → HasCleanDisk (state S.Store conn.old) }
    ensures faults { IfErr result IsReadFault }
    ensures cause { HasCleanDisk (state S.Store conn.new) → (v : AVersion) → conn.old.schema ≡ schema_of v
        → HasFaultCause (state S.Store conn.old) (state S.Store conn.new) result }
    ensures valid { IfOk result (AreFiled version) }
    ensures foreign { HasCleanDisk (state S.Store conn.new)
        → IfErr result (λ stop. stop ≡ bad_book → (v : AVersion) → conn.old.schema ≢ schema_of v) }
    ensures missed { HasNoMeaning conn.old.schema command_listing.text
        → Survives (state S.Store conn.old) (state S.Store conn.new) (λ _. ⊥)
        × (HasCleanDisk (state S.Store conn.new) → IsMissed (state S.Store conn.old)
        (state S.Store conn.new) result) }
    ensures same { HasCleanDisk (state S.Store conn.new)
        → OnOk result ((v : AVersion) → conn.old.schema ≡ schema_of v
        → IsUnchanged (state S.Store conn.old) (state S.Store conn.new)) }
    ensures read { HasCleanDisk (state S.Store conn.new)
        → IfOk result (λ found. (v : AVersion) → conn.old.schema ≡ schema_of v
        → (rows : List Columns) → Shows (state S.Store conn.old).now.trees ATable.Command rows
        → IsCommands version found rows) }
{
    // No `?` here: it would convert the error, and the contract states which error it is.
    let statement = match prepare(conn, select_of(Table::Command)) {
        Ok(statement) => statement,
        Err(stop) => return Err(stop),
    };
    match conn.query_prepared(&statement, &[]) {
        Ok(mut rows) => filed_rows(alloc, &mut rows, version),
        Err(error) => Err(stop_of(error)),
    }
}
