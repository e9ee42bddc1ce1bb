//! Applies a command under a reference: the reply, and the state of the store and of the book
//! afterwards.
ghost use Rattle.std.specs.Prelude.{◌≡◌, ◌≢◌, ◌≤◌, ◌+◌, ⊤, false, None, IfErr, OnErr};
ghost use Rattle.sqlite.specs.Held.{state};
ghost use Rattle.sqlite.specs.State.{HasCleanDisk, Survives};
ghost use Rattle.ob_state.specs.Searches.{most_searches};
ghost use Rattle.ob_book.specs.Acts.{ActState, number_of};
ghost use Rattle.ob_book.specs.Searches.{searches_of_act};
ghost use Rattle.ob_command.specs.Commands.{IsCommand, body_text as body_text_of};
ghost use Rattle.ob_store.specs.Keeping.{KeepsBook};
ghost use Rattle.ob_sql_write.specs.Keeps.{KeepsNumbers};
ghost use Rattle.ob_store.specs.Acting.{Acts, HasActCause, IsActStop, under};

use crate::reply::{Moves, Reply};
use crate::stored::stored_reply;
use ob_base::{Fault, Ref, Refusal, Stop};
use ob_book::{Book, Command, body_text};
use ob_record::{act_of, naming_law, reached_law};
use ob_sql_read::reaching_law;
use ob_sql_write::{Known, commit_act, look_up};
use ob_sweep::Timeline;
use sqlite::{Alter, Connection};
use std::alloc::Global;

/// Applies a command under a reference. If the reference is known, returns its stored reply or
/// refuses; otherwise decides on the command.
pub(crate) fn act_on<S: Alter, T: Timeline>(
    alloc: Global,
    conn: &mut Connection<S>,
    book: &mut Book<T>,
    reference: &Ref,
    command: &Command,
) -> Result<Reply, Stop>
    requires mode { conn.old.in_transaction ≡ false }
    ensures mode { conn.new.in_transaction ≡ false }
    ensures faults { IfErr result IsActStop }
    ensures clean { HasCleanDisk (state S.Store conn.new) → HasCleanDisk (state S.Store conn.old) }
    ensures limit { conn.new.step_limit ≡ conn.old.step_limit }
    ensures survives { Survives (state S.Store conn.old) (state S.Store conn.new) (λ _. ⊤) }
    ensures book { OnErr result (book.new.state ≡ book.old.state) }
    ensures acts { HasCleanDisk (state S.Store conn.new) → (b : ActState)
        → KeepsBook (state S.Store conn.old) b → book.old.state ≡ b.book
        → Acts S.Store conn.new book.old.state book.new.state b (under reference.now command.now)
        result }
    // `Fault::Store` is returned only if the store failed, or rolled the command's rows back
    ensures cause { HasCleanDisk (state S.Store conn.new) → (b : ActState)
        → KeepsBook (state S.Store conn.old) b → KeepsNumbers (state S.Store conn.old)
        → book.old.state ≡ b.book → HasActCause S.Store conn.old conn.new b
        (under reference.now command.now) result }
    ensures numbered { (b : ActState) → KeepsBook (state S.Store conn.old) b
        → book.old.state ≡ b.book → KeepsNumbers (state S.Store conn.old)
        → KeepsNumbers (state S.Store conn.new) }
    ensures searches { book.new.searches ≤ book.old.searches + most_searches T.bound book.old.state
        command.now }
    // none for a command that is refused, or whose reference is known
    ensures searched { HasCleanDisk (state S.Store conn.new) → (b : ActState)
        → KeepsBook (state S.Store conn.old) b → book.old.state ≡ b.book
        → book.new.searches ≤ book.old.searches + searches_of_act T.bound b
        (under reference.now command.now) }
{
    reached_law();
    naming_law();
    reaching_law();
    let body = match body_text(alloc, command) {
        Ok(body) => body,
        Err(stop) => return Err(stop),
    };
    match look_up(conn, reference.bytes(), &body) {
        Ok(Known::New) => accept(alloc, conn, book, reference, command, &body),
        Ok(Known::Same(no)) => stored_reply(alloc, conn, no),
        Ok(Known::Other(no)) => Err(Stop::Refused(Refusal::RefConflict(no))),
        Err(stop) => Err(stop),
    }
}

/// Decides on a command under a new reference, commits its rows, and adopts it.
fn accept<S: Alter, T: Timeline>(
    alloc: Global,
    conn: &mut Connection<S>,
    book: &mut Book<T>,
    reference: &Ref,
    command: &Command,
    body: &[u8],
) -> Result<Reply, Stop>
    requires mode { conn.old.in_transaction ≡ false }
    requires body { body.now ≡ body_text_of command.now }
    requires valid { IsCommand command.now }
    ensures mode { conn.new.in_transaction ≡ false }
    ensures faults { IfErr result IsActStop }
    ensures clean { HasCleanDisk (state S.Store conn.new) → HasCleanDisk (state S.Store conn.old) }
    ensures limit { conn.new.step_limit ≡ conn.old.step_limit }
    ensures survives { Survives (state S.Store conn.old) (state S.Store conn.new) (λ _. ⊤) }
    ensures book { OnErr result (book.new.state ≡ book.old.state) }
    ensures acts { HasCleanDisk (state S.Store conn.new) → (b : ActState)
        → KeepsBook (state S.Store conn.old) b → book.old.state ≡ b.book
        → number_of b reference.now ≡ None → Acts S.Store conn.new book.old.state book.new.state b
        (under reference.now command.now) result }
    ensures counts { (state S.Store conn.old).faults ≤ (state S.Store conn.new).faults }
    ensures cause { HasCleanDisk (state S.Store conn.new) → (b : ActState)
        → KeepsBook (state S.Store conn.old) b → KeepsNumbers (state S.Store conn.old)
        → book.old.state ≡ b.book → number_of b reference.now ≡ None
        → HasActCause S.Store conn.old conn.new b (under reference.now command.now) result }
    ensures numbered { (b : ActState) → KeepsBook (state S.Store conn.old) b
        → book.old.state ≡ b.book → KeepsNumbers (state S.Store conn.old)
        → KeepsNumbers (state S.Store conn.new) }
    ensures searches { book.new.searches ≤ book.old.searches + most_searches T.bound book.old.state
        command.now }
    ensures searched { (b : ActState) → book.old.state ≡ b.book
        → number_of b reference.now ≡ None → book.new.searches ≤ book.old.searches
        + searches_of_act T.bound b (under reference.now command.now) }
{
    reached_law();
    let plan = match book.decide(command) {
        Ok(plan) => plan,
        Err(stop) => return Err(stop),
    };
    let moved = match Vec::from_slice(alloc, plan.moves()) {
        Ok(moved) => Moves::new(moved),
        Err(_) => return Err(Stop::Fault(Fault::OutOfMemory)),
    };
    let act = act_of(book, &plan, reference.bytes(), body);
    let no = act.no;
    match commit_act(conn, &act, book.postings()) {
        Ok(()) => {
            book.adopt(plan);
            Ok(Reply { no, moved })
        }
        Err(stop) => Err(stop),
    }
}
