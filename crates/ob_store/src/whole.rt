//! Applies a list of commands in one transaction: all of them, or none.
ghost use Rattle.std.specs.Prelude.{◌≡◌, ◌≤◌, ◌+◌, ◌∷◌, if◌then◌else◌, false, None, Ok, IsTrue, IfErr, OnOk};
ghost use Rattle.sqlite.specs.Held.{state};
ghost use Rattle.sqlite.specs.State.{HasCleanDisk};
ghost use Rattle.ob_book.specs.Acts.{ActState, number_of};
ghost use Rattle.ob_book.specs.Searches.{searches_of_act};
ghost use Rattle.ob_command.specs.Commands.{IsCommand, body_text as body_text_of};
ghost use Rattle.ob_sql_rows.specs.Steps.{HasFaultCause, Silent};
ghost use Rattle.ob_sql_write.specs.Keeps.{KeepsNumbers};
ghost use Rattle.ob_store.specs.Acting.{IsActStop, under};
ghost use Rattle.ob_store.specs.Keeping.{KeepsBook};
ghost use Rattle.ob_store.specs.Lines.{CommitsList, OverLines, TriesList};
ghost use Rattle.ob_store.specs.Searching.{searches_of_line};
ghost use Rattle.ob_store.specs.Whole.{HasLineCause, IsWhole, ShowsBook, Tries};

use crate::lines::Lines;
use ob_base::{Fault, Ref, Refusal, Stop};
use ob_book::{Book, Command, body_text};
use ob_record::{act_of, naming_law, reached_law};
use ob_sql_read::{Progress, reaching_law};
use ob_sql_write::{Known, look_up_within, write_act};
use ob_sweep::Timeline;
use sqlite::{Alter, Connection, Transaction};
use std::alloc::Global;

/// Why a list of commands was not applied.
#[derive(Clone, Copy, Debug, PartialEq, Eq)]
pub struct Halted {
    /// The place in the list of the line that was being taken or applied, from 0; its length after
    /// all lines.
    pub place: usize,
    /// Why it stopped.
    pub stop: Stop,
}

/// The lines of a list that were applied.
#[derive(Clone, Copy)]
pub(crate) struct Applied {
    // All of them.
    lines: usize,
    // Those whose command was new to the book.
    added: usize,
}

/// Decides on a command under a new reference, writes its rows, and adopts it.
fn enter<S: Alter, T: Timeline>(
    tx: &mut Transaction<'_, S>,
    book: &mut Book<T>,
    reference: &Ref,
    command: &Command,
    body: &[u8],
) -> Result<bool, Stop>
    requires body { body.now ≡ body_text_of command.now }
    requires valid { IsCommand command.now }
    ensures same_reference { tx.new.conn.ghost_name ≡ tx.old.conn.ghost_name }
    ensures silent { Silent (state S.Store tx.old.conn.now) (state S.Store tx.new.conn.now) }
    ensures faults { IfErr result IsActStop }
    ensures inside { HasCleanDisk (state S.Store tx.new.conn.now)
        → OnOk result (IsTrue (state S.Store tx.old.conn.now).in_transaction
        → IsTrue (state S.Store tx.new.conn.now).in_transaction) }
    ensures tries { HasCleanDisk (state S.Store tx.new.conn.now) → (b : ActState)
        → ShowsBook (state S.Store tx.old.conn.now) b → book.old.state ≡ b.book
        → number_of b reference.now ≡ None → Tries (state S.Store tx.old.conn.now)
        (state S.Store tx.new.conn.now) book.new.state b (Ok (reference.now, command.now)) result }
    ensures cause { HasCleanDisk (state S.Store tx.new.conn.now) → (b : ActState)
        → ShowsBook (state S.Store tx.old.conn.now) b → IsWhole (state S.Store tx.old.conn.now)
        → book.old.state ≡ b.book → number_of b reference.now ≡ None
        → HasFaultCause (state S.Store tx.old.conn.now) (state S.Store tx.new.conn.now) result }
    ensures searched { (b : ActState) → book.old.state ≡ b.book
        → number_of b reference.now ≡ None → book.new.searches ≤ book.old.searches
        + searches_of_act T.bound b (under reference.now command.now) }
{
    reached_law();
    let plan = match book.decide(command) {
        Ok(plan) => plan,
        Err(stop) => return Err(stop),
    };
    let act = act_of(book, &plan, reference.bytes(), body);
    match write_act(tx, &act, book.postings()) {
        Ok(()) => {
            book.adopt(plan);
            Ok(true)
        }
        Err(stop) => Err(stop),
    }
}

/// Applies a command under a reference inside a transaction, and returns whether it was new to the
/// book.
fn act_within<S: Alter, T: Timeline>(
    alloc: Global,
    tx: &mut Transaction<'_, S>,
    book: &mut Book<T>,
    reference: &Ref,
    command: &Command,
) -> Result<bool, Stop>
    requires inside { HasCleanDisk (state S.Store tx.old.conn.now)
        → IsTrue (state S.Store tx.old.conn.now).in_transaction }
    ensures same_reference { tx.new.conn.ghost_name ≡ tx.old.conn.ghost_name }
    ensures silent { Silent (state S.Store tx.old.conn.now) (state S.Store tx.new.conn.now) }
    ensures faults { IfErr result IsActStop }
    ensures live { HasCleanDisk (state S.Store tx.new.conn.now)
        → OnOk result (IsTrue (state S.Store tx.old.conn.now).is_open) }
    ensures inside { HasCleanDisk (state S.Store tx.new.conn.now)
        → OnOk result (IsTrue (state S.Store tx.new.conn.now).in_transaction) }
    ensures tries { HasCleanDisk (state S.Store tx.new.conn.now) → (b : ActState)
        → ShowsBook (state S.Store tx.old.conn.now) b → book.old.state ≡ b.book
        → Tries (state S.Store tx.old.conn.now) (state S.Store tx.new.conn.now) book.new.state b
        (Ok (reference.now, command.now)) result }
    ensures cause { HasCleanDisk (state S.Store tx.new.conn.now) → (b : ActState)
        → ShowsBook (state S.Store tx.old.conn.now) b → IsWhole (state S.Store tx.old.conn.now)
        → book.old.state ≡ b.book
        → HasFaultCause (state S.Store tx.old.conn.now) (state S.Store tx.new.conn.now) result }
    ensures searched { HasCleanDisk (state S.Store tx.new.conn.now) → (b : ActState)
        → ShowsBook (state S.Store tx.old.conn.now) b → book.old.state ≡ b.book
        → book.new.searches ≤ book.old.searches + searches_of_act T.bound b
        (under reference.now command.now) }
{
    reached_law();
    naming_law();
    reaching_law();
    let body = match body_text(alloc, command) {
        Ok(body) => body,
        Err(stop) => return Err(stop),
    };
    match look_up_within(tx, reference.bytes(), &body) {
        Ok(Known::New) => enter(tx, book, reference, command, &body),
        Ok(Known::Same(_no)) => Ok(false),
        Ok(Known::Other(no)) => Err(Stop::Refused(Refusal::RefConflict(no))),
        Err(stop) => Err(stop),
    }
}

/// Applies a line of a list inside a transaction, and returns whether its command was new to the
/// book.
fn act_line<S: Alter, T: Timeline>(
    alloc: Global,
    tx: &mut Transaction<'_, S>,
    book: &mut Book<T>,
    line: &Result<(Ref, Command), Refusal>,
) -> Result<bool, Stop>
    requires inside { HasCleanDisk (state S.Store tx.old.conn.now)
        → IsTrue (state S.Store tx.old.conn.now).in_transaction }
    ensures same_reference { tx.new.conn.ghost_name ≡ tx.old.conn.ghost_name }
    ensures silent { Silent (state S.Store tx.old.conn.now) (state S.Store tx.new.conn.now) }
    ensures faults { IfErr result IsActStop }
    ensures live { HasCleanDisk (state S.Store tx.new.conn.now)
        → OnOk result (IsTrue (state S.Store tx.old.conn.now).is_open) }
    ensures inside { HasCleanDisk (state S.Store tx.new.conn.now)
        → OnOk result (IsTrue (state S.Store tx.new.conn.now).in_transaction) }
    ensures tries { HasCleanDisk (state S.Store tx.new.conn.now) → (b : ActState)
        → ShowsBook (state S.Store tx.old.conn.now) b → book.old.state ≡ b.book
        → Tries (state S.Store tx.old.conn.now) (state S.Store tx.new.conn.now) book.new.state b
        line.now result }
    ensures cause { HasCleanDisk (state S.Store tx.new.conn.now) → (b : ActState)
        → ShowsBook (state S.Store tx.old.conn.now) b → IsWhole (state S.Store tx.old.conn.now)
        → book.old.state ≡ b.book
        → HasFaultCause (state S.Store tx.old.conn.now) (state S.Store tx.new.conn.now) result }
    ensures searched { HasCleanDisk (state S.Store tx.new.conn.now) → (b : ActState)
        → ShowsBook (state S.Store tx.old.conn.now) b → book.old.state ≡ b.book
        → book.new.searches ≤ book.old.searches + searches_of_line T.bound b line.now }
{
    match line {
        Ok(said) => act_within(alloc, tx, book, &said.0, &said.1),
        Err(refusal) => Err(Stop::Refused(*refusal)),
    }
}

/// How many commands a line added, by whether its command was new.
fn count_of(is_new: bool) -> usize
    ensures value { result ≡ (if is_new then 1 else 0) }
    ensures few { result ≤ 1 }
{
    if is_new { 1 } else { 0 }
}

/// Applies a line and those that follow it inside a transaction, up to the first that is refused.
/// Commits nothing.
fn act_lines<S: Alter, T: Timeline, L: Lines, P: Progress>(
    alloc: Global,
    tx: &mut Transaction<'_, S>,
    book: &mut Book<T>,
    first: Result<(Ref, Command), Refusal>,
    lines: &mut L,
    progress: &mut P,
) -> Result<Applied, Halted>
    requires inside { IsTrue (state S.Store tx.old.conn.now).in_transaction }
    ensures same_reference { tx.new.conn.ghost_name ≡ tx.old.conn.ghost_name }
    ensures silent { Silent (state S.Store tx.old.conn.now) (state S.Store tx.new.conn.now) }
    ensures faults { IfErr result (λ e. IsActStop e.stop) }
    ensures live { HasCleanDisk (state S.Store tx.new.conn.now)
        → OnOk result (IsTrue (state S.Store tx.old.conn.now).is_open) }
    ensures over { OverLines L.gives lines.old lines.new (λ list. TriesList T.bound
        (state S.Store tx.old.conn.now) (state S.Store tx.new.conn.now) book.old.state
        book.new.state book.old.searches book.new.searches (first ∷ list) result) }
    ensures cause { HasCleanDisk (state S.Store tx.new.conn.now) → (b : ActState)
        → ShowsBook (state S.Store tx.old.conn.now) b → IsWhole (state S.Store tx.old.conn.now)
        → book.old.state ≡ b.book
        → HasLineCause (state S.Store tx.old.conn.now) (state S.Store tx.new.conn.now) result }
{
    let mut line = first;
    let mut added = 0usize;
    'each: for place in 0..usize::MAX {
        match act_line(alloc, tx, book, &line) {
            Ok(is_new) => added += count_of(is_new),
            Err(stop) => return Err(Halted { place, stop }),
        }
        let count = place + 1;
        progress.step(u32::try_from(count).unwrap_or(u32::MAX));
        match lines.next() {
            Ok(Some(next)) => line = next,
            Ok(None) => {
                return Ok(Applied {
                    lines: count,
                    added,
                });
            }
            Err(fault) => {
                return Err(Halted {
                    place: count,
                    stop: Stop::Fault(fault),
                });
            }
        }
    }
    // more lines than can be counted, so more than any memory holds
    Err(Halted {
        place: usize::MAX,
        stop: Stop::Fault(Fault::OutOfMemory),
    })
}

/// Applies lines that are given one after another in one transaction, and commits it after the
/// last. Begins none if there is no line.
pub(crate) fn act_all_on<S: Alter, T: Timeline, L: Lines, P: Progress>(
    alloc: Global,
    conn: &mut Connection<S>,
    book: &mut Book<T>,
    lines: &mut L,
    progress: &mut P,
) -> Result<usize, Halted>
    requires mode { conn.old.in_transaction ≡ false }
    ensures mode { conn.new.in_transaction ≡ false }
    ensures faults { IfErr result (λ e. IsActStop e.stop) }
    ensures over { OverLines L.gives lines.old lines.new (λ list. CommitsList S.Store T.bound
        conn.old conn.new book.old.state book.new.state book.old.searches book.new.searches list
        result) }
    ensures numbered { (b : ActState) → KeepsBook (state S.Store conn.old) b
        → book.old.state ≡ b.book → KeepsNumbers (state S.Store conn.old)
        → KeepsNumbers (state S.Store conn.new) }
{
    let first = match lines.next() {
        Ok(Some(first)) => first,
        Ok(None) => return Ok(0),
        Err(fault) => {
            return Err(Halted {
                place: 0,
                stop: Stop::Fault(fault),
            });
        }
    };
    // an open connection shows a complete database
    let _schema = conn.schema();
    let mut tx = conn.transaction();
    let applied = match act_lines(alloc, &mut tx, book, first, lines, progress) {
        Ok(applied) => applied,
        Err(halted) => return Err(halted),
    };
    match tx.commit() {
        Ok(()) => Ok(applied.added),
        Err(_) => Err(Halted {
            place: applied.lines,
            stop: Stop::Fault(Fault::Store),
        }),
    }
}
