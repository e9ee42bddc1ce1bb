//! Compares the table of moved amounts with the changes that the commands make: row by row, in one
//! query.
ghost use Rattle.std.specs.Prelude.{◌∷◌, ◌≡◌, ◌≢◌, ◌≤◌, ◌+◌, ◌↔◌, ◌&&◌, false, true, List, [], IsTrue, IfOk, IfErr, OnOk, Ok, Some, is_none};
ghost use Rattle.sqlite.specs.Order.{Row as ARow};
ghost use Rattle.sqlite.specs.Held.{state};
ghost use Rattle.sqlite.specs.Given.{HasGiven};
ghost use Rattle.sqlite.specs.State.{HasCleanDisk, IsUnchanged, Survives};
ghost use Rattle.ob_base.specs.Stop.{out_of_memory};
ghost use Rattle.ob_post.specs.Keys.{dim_number};
ghost use Rattle.ob_state.specs.Amounts.{moves as moves_of};
ghost use Rattle.ob_state.specs.Next.{next};
ghost use Rattle.ob_state.specs.Refusals.{refusal as refusal_to};
ghost use Rattle.ob_state.specs.Searches.{all_searches, most_searches};
ghost use Rattle.ob_sql_rows.specs.Versions.{schema_of};
ghost use Rattle.ob_sql_rows.specs.declared.version.Version.{Version as AVersion};
ghost use Rattle.ob_sql_rows.specs.Rows.{Columns, Tables, moved_row};
ghost use Rattle.ob_sql_rows.specs.Steps.{HasFaultCause, IsStoreFault};
ghost use Rattle.ob_sql_rows.specs.declared.table.Table.{Table as ATable};
ghost use Rattle.ob_sql_write.specs.Keeps.{KeepsIn};
ghost use Rattle.ob_record.specs.Tables.{Shows, rows_of_moves};
ghost use Rattle.ob_sql_read.specs.Faults.{HasNoMeaning, IsMissed, IsReadFault, bad_book};
ghost use Rattle.ob_sql_read.specs.Listing.{Goes, filed_of};
ghost use Rattle.ob_sql_read.specs.Moves.{HasMoved, commands_of, moved_listing};
ghost use Rattle.ob_sql_read.specs.Versioned.{accepts_in, next_all_in};

use crate::filed::Filed;
use crate::layout::Layout;
use crate::leading::decide_noting;
use crate::progress::{Progress, Work};
use crate::query::prepare;
use crate::rows::{advance, is_over};
use ob_base::Stop;
use ob_book::Book;
use ob_command::Command;
use ob_post::Moved;
use ob_sql_rows::{Table, Version, select_of, stop_of};
use ob_sql_write::read_moved;
use ob_sweep::Timeline;
use ob_upgrade::fits_version_one;
use sqlite::{Alter, Connection, Row, Rows};

/// Whether the row is that of a change of an amount by the command of this number.
fn is_moved(row: &Row, no: u32, it: Moved) -> bool
    ensures { IsTrue result ↔ (row.now ≡ moved_row no (dim_number it.dim) it.key it.delta) }
{
    read_moved(row) == Some((no, it))
}

/// Whether the next row is that of a change of an amount by the command of this number.
fn next_is<S: Alter>(rows: &mut Rows<'_, S>, no: u32, it: &Moved) -> Result<bool, Stop>
    ensures same_reference { rows.new.conn.ghost_name ≡ rows.old.conn.ghost_name }
    ensures survives { Survives (state S.Store rows.old.conn.now) (state S.Store rows.new.conn.now)
        (λ _. ⊥) }
    ensures kept { (v : AVersion) (t : Tables) → KeepsIn v (state S.Store rows.old.conn.now) t
        → KeepsIn v (state S.Store rows.new.conn.now) t }
    ensures mode { rows.old.conn.now.in_transaction ≡ false
        → rows.new.conn.now.in_transaction ≡ false }
    ensures faults { IfErr result IsStoreFault }
    ensures cause { HasCleanDisk (state S.Store rows.new.conn.now)
        → (v : AVersion) → (state S.Store rows.old.conn.now).now.schema ≡ schema_of v
        → (given : List ARow) → HasGiven S.Store moved_listing.text [] rows.old.conn.now given
        → HasFaultCause (state S.Store rows.old.conn.now) (state S.Store rows.new.conn.now) result }
    ensures same { HasCleanDisk (state S.Store rows.new.conn.now)
        → OnOk result (IsUnchanged (state S.Store rows.old.conn.now)
        (state S.Store rows.new.conn.now)) }
    ensures goes { HasCleanDisk (state S.Store rows.new.conn.now)
        → IfOk result (λ is. (v : AVersion) → (state S.Store rows.old.conn.now).now.schema
        ≡ schema_of v → (given : List ARow) → HasGiven S.Store moved_listing.text []
        rows.old.conn.now given → Goes S.Store moved_listing is rows.new.conn.now given
        (moved_row no (dim_number it.now.dim) it.now.key it.now.delta ∷ [])) }
{
    advance(rows)?;
    match rows.get() {
        Some(row) => Ok(is_moved(row, no, *it)),
        None => Ok(false),
    }
}

/// Whether the next rows are those of the changes that a command makes.
fn matches<S: Alter>(rows: &mut Rows<'_, S>, no: u32, moves: &[Moved]) -> Result<bool, Stop>
    ensures same_reference { rows.new.conn.ghost_name ≡ rows.old.conn.ghost_name }
    ensures survives { Survives (state S.Store rows.old.conn.now) (state S.Store rows.new.conn.now)
        (λ _. ⊥) }
    ensures kept { (v : AVersion) (t : Tables) → KeepsIn v (state S.Store rows.old.conn.now) t
        → KeepsIn v (state S.Store rows.new.conn.now) t }
    ensures mode { rows.old.conn.now.in_transaction ≡ false
        → rows.new.conn.now.in_transaction ≡ false }
    ensures faults { IfErr result IsStoreFault }
    ensures cause { HasCleanDisk (state S.Store rows.new.conn.now)
        → IsTrue (state S.Store rows.old.conn.now).is_open
        → (v : AVersion) → (state S.Store rows.old.conn.now).now.schema ≡ schema_of v
        → (given : List ARow) → HasGiven S.Store moved_listing.text [] rows.old.conn.now given
        → HasFaultCause (state S.Store rows.old.conn.now) (state S.Store rows.new.conn.now) result }
    ensures same { HasCleanDisk (state S.Store rows.new.conn.now)
        → OnOk result (IsTrue (state S.Store rows.old.conn.now).is_open
        → IsUnchanged (state S.Store rows.old.conn.now) (state S.Store rows.new.conn.now)) }
    ensures goes { HasCleanDisk (state S.Store rows.new.conn.now)
        → IfOk result (λ is. IsTrue (state S.Store rows.old.conn.now).is_open → (v : AVersion)
        → (state S.Store rows.old.conn.now).now.schema ≡ schema_of v → (given : List ARow)
        → HasGiven S.Store moved_listing.text [] rows.old.conn.now given
        → Goes S.Store moved_listing is rows.new.conn.now given (rows_of_moves no moves.now)) }
{
    'moves: for at in 0..moves.len() {
        if !next_is(rows, no, &moves[at])? {
            return Ok(false);
        }
    }
    Ok(true)
}

/// Whether a version has the command and allows it over the book's switching log. Of these commands
/// the version accepts those that are accepted today.
fn fits<T: Timeline>(book: &Book<T>, command: &Command, version: Version) -> bool
    ensures { accepts_in version book.now.state command.now
        ≡ (result && is_none (refusal_to book.now.state command.now)) }
{
    match version {
        Version::One => fits_version_one(book.sheet(), command),
        Version::Two => true,
    }
}

/// Whether a version accepts the command, and the next rows are those of the changes that it makes.
/// If so, the book adopts it, and `noted` records what it changes in the network.
fn takes_on<S: Alter, T: Timeline>(
    rows: &mut Rows<'_, S>,
    book: &mut Book<T>,
    no: u32,
    command: &Command,
    noted: &mut Layout,
    version: Version,
) -> Result<bool, Stop>
    ensures same_reference { rows.new.conn.ghost_name ≡ rows.old.conn.ghost_name }
    ensures survives { Survives (state S.Store rows.old.conn.now) (state S.Store rows.new.conn.now)
        (λ _. ⊥) }
    ensures kept { (v : AVersion) (t : Tables) → KeepsIn v (state S.Store rows.old.conn.now) t
        → KeepsIn v (state S.Store rows.new.conn.now) t }
    ensures mode { rows.old.conn.now.in_transaction ≡ false
        → rows.new.conn.now.in_transaction ≡ false }
    ensures faults { IfErr result IsStoreFault }
    ensures cause { HasCleanDisk (state S.Store rows.new.conn.now)
        → IsTrue (state S.Store rows.old.conn.now).is_open
        → (v : AVersion) → (state S.Store rows.old.conn.now).now.schema ≡ schema_of v
        → (given : List ARow) → HasGiven S.Store moved_listing.text [] rows.old.conn.now given
        → HasFaultCause (state S.Store rows.old.conn.now) (state S.Store rows.new.conn.now) result }
    ensures same { HasCleanDisk (state S.Store rows.new.conn.now)
        → OnOk result (IsTrue (state S.Store rows.old.conn.now).is_open
        → IsUnchanged (state S.Store rows.old.conn.now) (state S.Store rows.new.conn.now)) }
    ensures goes { HasCleanDisk (state S.Store rows.new.conn.now)
        → IfOk result (λ is. IsTrue (state S.Store rows.old.conn.now).is_open → (v : AVersion)
        → (state S.Store rows.old.conn.now).now.schema ≡ schema_of v → (given : List ARow)
        → HasGiven S.Store moved_listing.text [] rows.old.conn.now given
        → IsTrue (accepts_in version book.old.state command.now)
        → Goes S.Store moved_listing is rows.new.conn.now given
        (rows_of_moves no (moves_of book.old.state (next book.old.state command.now)))) }
    ensures book { result ≡ Ok true → IsTrue (accepts_in version book.old.state command.now)
        × (book.new.state ≡ next book.old.state command.now) }
    ensures noted { result ≡ Ok true → noted.old ≡ book.old.state.network
        → noted.new ≡ book.new.state.network }
    ensures searches { book.new.searches ≤ book.old.searches + most_searches T.bound book.old.state
        command.now }
{
    if !fits(book, command, version) {
        return Ok(false);
    }
    let Some(plan) = decide_noting(book, command, noted)? else {
        return Ok(false);
    };
    if !matches(rows, no, plan.moves())? {
        return Ok(false);
    }
    book.adopt(plan);
    Ok(true)
}

/// Whether a version accepts each command in its turn, and the rows still to be read are those of
/// the changes that they make. Replays the commands on the book, and records what they change in
/// the network.
fn follows<S: Alter, T: Timeline, P: Progress>(
    rows: &mut Rows<'_, S>,
    book: &mut Book<T>,
    commands: &[Filed],
    noted: &mut Layout,
    version: Version,
    progress: &mut P,
) -> Result<bool, Stop>
    ensures same_reference { rows.new.conn.ghost_name ≡ rows.old.conn.ghost_name }
    ensures survives { Survives (state S.Store rows.old.conn.now) (state S.Store rows.new.conn.now)
        (λ _. ⊥) }
    ensures kept { (v : AVersion) (t : Tables) → KeepsIn v (state S.Store rows.old.conn.now) t
        → KeepsIn v (state S.Store rows.new.conn.now) t }
    ensures mode { rows.old.conn.now.in_transaction ≡ false
        → rows.new.conn.now.in_transaction ≡ false }
    ensures faults { IfErr result IsStoreFault }
    ensures cause { HasCleanDisk (state S.Store rows.new.conn.now)
        → IsTrue (state S.Store rows.old.conn.now).is_open
        → (v : AVersion) → (state S.Store rows.old.conn.now).now.schema ≡ schema_of v
        → HasGiven S.Store moved_listing.text [] rows.old.conn.now []
        → HasFaultCause (state S.Store rows.old.conn.now) (state S.Store rows.new.conn.now) result }
    ensures same { HasCleanDisk (state S.Store rows.new.conn.now)
        → OnOk result (IsTrue (state S.Store rows.old.conn.now).is_open
        → IsUnchanged (state S.Store rows.old.conn.now) (state S.Store rows.new.conn.now)) }
    ensures moved { HasCleanDisk (state S.Store rows.new.conn.now)
        → IfOk result (λ is. IsTrue (state S.Store rows.old.conn.now).is_open → (v : AVersion)
        → (state S.Store rows.old.conn.now).now.schema ≡ schema_of v
        → HasGiven S.Store moved_listing.text [] rows.old.conn.now [] → (table : List Columns)
        → Shows (state S.Store rows.old.conn.now).now.trees ATable.Moved table
        → IsTrue is ↔ HasMoved version table book.old.state (filed_of commands.now)) }
    ensures book { result ≡ Ok true → next_all_in version book.old.state
        (commands_of (filed_of commands.now)) ≡ Some book.new.state }
    ensures noted { result ≡ Ok true → noted.old ≡ book.old.state.network
        → noted.new ≡ book.new.state.network }
    ensures searches { book.new.searches ≤ book.old.searches + all_searches T.bound book.old.state
        (commands_of (filed_of commands.now)) }
{
    progress.begin(Work::Commands, commands.len() as u64);
    'commands: for at in 0..commands.len() {
        // A book has a million commands at most, so that the number is small.
        let _ = book.accepted();
        let no = at as u32 + 1;
        if !takes_on(rows, book, no, &commands[at].command, noted, version)? {
            return Ok(false);
        }
        progress.step(no);
    }
    is_over(rows)
}

/// Whether a version accepts each command in its turn, and the table of moved amounts holds exactly
/// the changes that they make. Replays the commands on the book, records what they change in the
/// network, and reports each replayed command to `progress`. Nothing is written. Refuses with
/// `BadBook` if the database lacks the table. The tables may be those of either version. Searches the
/// network for each command at most as often as its plan may.
pub fn holds_moves<S: Alter, T: Timeline, P: Progress>(
    conn: &mut Connection<S>,
    book: &mut Book<T>,
    commands: &[Filed],
    noted: &mut Layout,
    version: Version,
    progress: &mut P,
) -> Result<bool, Stop>
    ensures mode { conn.old.in_transaction ≡ false → conn.new.in_transaction ≡ false }
    ensures survives { Survives (state S.Store conn.old) (state S.Store conn.new) (λ _. ⊥) }
    ensures kept { (v : AVersion) (t : Tables) → KeepsIn v (state S.Store conn.old) t
        → KeepsIn v (state S.Store conn.new) t }
    ensures clean { HasCleanDisk (state S.Store conn.new) → HasCleanDisk (state S.Store conn.old) }
    ensures faults { IfErr result IsReadFault }
    ensures cause { HasCleanDisk (state S.Store conn.new) → (v : AVersion) → conn.old.schema ≡ schema_of v
        → HasFaultCause (state S.Store conn.old) (state S.Store conn.new) result }
    ensures foreign { HasCleanDisk (state S.Store conn.new)
        → IfErr result (λ stop. stop ≡ bad_book → (v : AVersion) → conn.old.schema ≢ schema_of v) }
    ensures missed { HasNoMeaning conn.old.schema moved_listing.text
        → Survives (state S.Store conn.old) (state S.Store conn.new) (λ _. ⊥)
        × (HasCleanDisk (state S.Store conn.new) → IsMissed (state S.Store conn.old)
        (state S.Store conn.new) result) }
    ensures same { HasCleanDisk (state S.Store conn.new)
        → OnOk result ((v : AVersion) → conn.old.schema ≡ schema_of v
        → IsUnchanged (state S.Store conn.old) (state S.Store conn.new)) }
    ensures moved { HasCleanDisk (state S.Store conn.new)
        → IfOk result (λ is. (v : AVersion) → conn.old.schema ≡ schema_of v → (table : List Columns)
        → Shows (state S.Store conn.old).now.trees ATable.Moved table
        → IsTrue is ↔ HasMoved version table book.old.state (filed_of commands.now)) }
    ensures book { result ≡ Ok true → next_all_in version book.old.state
        (commands_of (filed_of commands.now)) ≡ Some book.new.state }
    ensures noted { result ≡ Ok true → noted.old ≡ book.old.state.network
        → noted.new ≡ book.new.state.network }
    ensures searches { book.new.searches ≤ book.old.searches + all_searches T.bound book.old.state
        (commands_of (filed_of commands.now)) }
{
    // No `?` here: it would convert the error, and the contract states which error it is.
    let statement = match prepare(conn, select_of(Table::Moved)) {
        Ok(statement) => statement,
        Err(stop) => return Err(stop),
    };
    match conn.query_prepared(&statement, &[]) {
        Ok(mut rows) => follows(&mut rows, book, commands, noted, version, progress),
        Err(error) => Err(stop_of(error)),
    }
}
