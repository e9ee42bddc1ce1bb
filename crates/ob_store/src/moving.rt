//! Exports the changes of amounts that accepted commands made, row by row.
ghost use Rattle.std.specs.Prelude.{◌≡◌, false, List, [], map, IsTrue, IfOk, IfErr, OnOk};
ghost use Rattle.sqlite.specs.Order.{Row as ARow};
ghost use Rattle.sqlite.specs.Held.{state};
ghost use Rattle.sqlite.specs.Given.{Advances, HasGiven, row_if};
ghost use Rattle.sqlite.specs.State.{HasCleanDisk, IsUnchanged, Survives};
ghost use Rattle.ob_sql_rows.specs.Schema.{book_schema};
ghost use Rattle.ob_sql_rows.specs.Rows.{Tables};
ghost use Rattle.ob_sql_rows.specs.Steps.{HasFaultCause, IsStoreFault};
ghost use Rattle.ob_sql_write.specs.Keeps.{Keeps};
ghost use Rattle.ob_book.specs.Acts.{ActState};
ghost use Rattle.ob_sql_read.specs.Moves.{moved_listing};
ghost use Rattle.ob_store.specs.Keeping.{KeepsBook};
ghost use Rattle.ob_store.specs.MovingOut.{AreFewMoves, ComesNext, Hands, HandsOut, HasHaltCause, MovesAreFew, MovesAreRows, Numbered, row_of_move};

use ob_base::{Fault, Stop};
use ob_book::next_law;
use ob_post::Moved;
use ob_post::laws::move_laws;
use ob_record::naming_law;
use ob_sql_rows::stop_of;
use ob_sql_write::read_moved;
use sqlite::{Alter, Connection, Rows};

/// Receives the changes of amounts that commands made, one after another.
pub trait MoveSink {
    ghost use Rattle.std.specs.Prelude.{⊤, ℕ, Result};
    ghost use Rattle.ob_post.specs.declared.Moved.{Moved as AMoved};
    ghost use Rattle.ob_base.specs.declared.stop.Fault.{Fault as AFault};

    /// What a take changes in a sink, whether it fails or not.
    ghost takes: { Self → ℕ → AMoved → Result ⊤ AFault → Self → Type 0 };

    /// Takes a change of an amount that the command of this number made.
    fn take(&mut self, cmd: u32, m: &Moved) -> Result<(), Fault>
        ensures { takes self.old cmd m.now result self.new };
}

/// States that the changes of amounts, row by row, are the table of moved amounts.
pub(crate) fn moves_law()
    ensures { MovesAreRows }
{}

/// States that the numbers and keys of the changes fit the types that rows are read into, and that
/// a `u64` can count them all.
fn few_moves_law()
    ensures { MovesAreFew }
{
    next_law();
    move_laws();
    naming_law();
}

/// Why an export ended early.
pub(crate) enum Halt {
    /// The sink failed.
    Sink(Fault),
    /// An allocation failed, or the store failed.
    Store(Stop),
}

/// Moves to the next row, or past the last.
fn advance<S: Alter>(rows: &mut Rows<'_, S>) -> Result<(), Stop>
    ensures same_reference { rows.new.conn.ghost_name ≡ rows.old.conn.ghost_name }
    ensures survives { Survives (state S.Store rows.old.conn.now) (state S.Store rows.new.conn.now)
        (λ _. ⊥) }
    ensures mode { rows.old.conn.now.in_transaction ≡ false
        → rows.new.conn.now.in_transaction ≡ false }
    ensures faults { IfErr result IsStoreFault }
    ensures kept { (t : Tables) → Keeps (state S.Store rows.old.conn.now) t
        → Keeps (state S.Store rows.new.conn.now) t }
    ensures same { HasCleanDisk (state S.Store rows.new.conn.now)
        → OnOk result (IsUnchanged (state S.Store rows.old.conn.now)
        (state S.Store rows.new.conn.now)) }
    ensures goes { HasCleanDisk (state S.Store rows.new.conn.now)
        → OnOk result (Advances S.Store rows.old.conn.now rows.new.conn.now
        (row_if rows.new.has_row rows.new.conn.now)) }
    ensures cause { HasCleanDisk (state S.Store rows.new.conn.now)
        → (state S.Store rows.old.conn.now).now.schema ≡ book_schema → (given : List ARow)
        → HasGiven S.Store moved_listing.text [] rows.old.conn.now given
        → HasFaultCause (state S.Store rows.old.conn.now) (state S.Store rows.new.conn.now) result }
{
    match rows.advance() {
        Ok(()) => Ok(()),
        Err(error) => Err(stop_of(error)),
    }
}

/// Reads a change of an amount from the next row, with the number of the command; None if no row is
/// left.
fn next_moved<S: Alter>(rows: &mut Rows<'_, S>) -> Result<Option<(u32, Moved)>, Stop>
    ensures same_reference { rows.new.conn.ghost_name ≡ rows.old.conn.ghost_name }
    ensures survives { Survives (state S.Store rows.old.conn.now) (state S.Store rows.new.conn.now)
        (λ _. ⊥) }
    ensures mode { rows.old.conn.now.in_transaction ≡ false
        → rows.new.conn.now.in_transaction ≡ false }
    ensures faults { IfErr result IsStoreFault }
    ensures kept { (t : Tables) → Keeps (state S.Store rows.old.conn.now) t
        → Keeps (state S.Store rows.new.conn.now) t }
    ensures same { HasCleanDisk (state S.Store rows.new.conn.now)
        → OnOk result (IsUnchanged (state S.Store rows.old.conn.now)
        (state S.Store rows.new.conn.now)) }
    ensures next { HasCleanDisk (state S.Store rows.new.conn.now) → IfOk result (λ found.
        (state S.Store rows.old.conn.now).now.schema ≡ book_schema → (given : List ARow)
        → HasGiven S.Store moved_listing.text [] rows.old.conn.now given
        → ComesNext S.Store found rows.new.conn.now given) }
    ensures cause { HasCleanDisk (state S.Store rows.new.conn.now) → (b : ActState)
        → AreFewMoves b → KeepsBook (state S.Store rows.old.conn.now) b
        → IsTrue (state S.Store rows.old.conn.now).is_open → (front : List Numbered)
        → HasGiven S.Store moved_listing.text [] rows.old.conn.now (map row_of_move front)
        → HasFaultCause (state S.Store rows.old.conn.now) (state S.Store rows.new.conn.now) result }
{
    advance(rows)?;
    match rows.get() {
        Some(row) => match read_moved(row) {
            Some(it) => Ok(Some(it)),
            None => Err(Stop::Fault(Fault::Store)),
        },
        None => Ok(None),
    }
}

/// Passes the rows still to be read to a sink, one at a time, and returns how many there are.
fn hand_rows<S: Alter, V: MoveSink>(rows: &mut Rows<'_, S>, sink: &mut V) -> Result<u64, Halt>
    ensures same_reference { rows.new.conn.ghost_name ≡ rows.old.conn.ghost_name }
    ensures survives { Survives (state S.Store rows.old.conn.now) (state S.Store rows.new.conn.now)
        (λ _. ⊥) }
    ensures mode { rows.old.conn.now.in_transaction ≡ false
        → rows.new.conn.now.in_transaction ≡ false }
    ensures sink { Hands V.takes sink.old sink.new result }
    ensures kept { (t : Tables) → Keeps (state S.Store rows.old.conn.now) t
        → Keeps (state S.Store rows.new.conn.now) t }
    ensures hands { HasCleanDisk (state S.Store rows.new.conn.now) → (b : ActState)
        → KeepsBook (state S.Store rows.old.conn.now) b
        → IsTrue (state S.Store rows.old.conn.now).is_open
        → HasGiven S.Store moved_listing.text [] rows.old.conn.now []
        → HandsOut V.takes sink.old sink.new b result }
    ensures cause { HasCleanDisk (state S.Store rows.new.conn.now) → (b : ActState)
        → AreFewMoves b → KeepsBook (state S.Store rows.old.conn.now) b
        → IsTrue (state S.Store rows.old.conn.now).is_open
        → HasGiven S.Store moved_listing.text [] rows.old.conn.now []
        → HasHaltCause (state S.Store rows.old.conn.now) (state S.Store rows.new.conn.now) result }
{
    'moves: for count in 0..u64::MAX {
        match next_moved(rows) {
            Ok(Some((cmd, it))) => match sink.take(cmd, &it) {
                Ok(()) => {}
                Err(fault) => return Err(Halt::Sink(fault)),
            },
            Ok(None) => return Ok(count),
            Err(stop) => return Err(Halt::Store(stop)),
        }
    }
    Err(Halt::Store(Stop::Fault(Fault::Store)))
}

/// Passes the changes that the accepted commands made to a sink: by number, dimension and key.
/// Nothing is written.
pub(crate) fn hand_out<S: Alter, V: MoveSink>(
    conn: &mut Connection<S>,
    sink: &mut V,
) -> Result<u64, Halt>
    ensures mode { conn.old.in_transaction ≡ false → conn.new.in_transaction ≡ false }
    ensures survives { Survives (state S.Store conn.old) (state S.Store conn.new) (λ _. ⊥) }
    ensures sink { Hands V.takes sink.old sink.new result }
    ensures kept { (b : ActState) → KeepsBook (state S.Store conn.old) b
        → KeepsBook (state S.Store conn.new) b }
    ensures hands { HasCleanDisk (state S.Store conn.new) → (b : ActState)
        → KeepsBook (state S.Store conn.old) b → HandsOut V.takes sink.old sink.new b result }
    ensures cause { HasCleanDisk (state S.Store conn.new) → (b : ActState)
        → KeepsBook (state S.Store conn.old) b
        → HasHaltCause (state S.Store conn.old) (state S.Store conn.new) result }
{
    few_moves_law();
    let statement = match conn.prepare(
        "SELECT cmd, dim, k, delta FROM moved ORDER BY cmd, dim, k",
    ) {
        Ok(statement) => statement,
        Err(error) => return Err(Halt::Store(stop_of(error))),
    };
    match conn.query_prepared(&statement, &[]) {
        Ok(mut rows) => hand_rows(&mut rows, sink),
        Err(error) => Err(Halt::Store(stop_of(error))),
    }
}
