//! The stored reply of an accepted command.
ghost use Rattle.std.specs.Prelude.{◌≡◌, ◌≤◌, false, length, IfOk, IfErr};
ghost use Rattle.sqlite.specs.Held.{state};
ghost use Rattle.sqlite.specs.State.{HasCleanDisk, Survives};
ghost use Rattle.ob_sql_rows.specs.Steps.{HasFaultCause, IsStoreFault};
ghost use Rattle.ob_book.specs.Acts.{ActState, reply_of};
ghost use Rattle.ob_store.specs.Keeping.{KeepsBook};
ghost use Rattle.ob_store.specs.Acting.{reply_as};
ghost use Rattle.ob_store.specs.Replying.{Replies};

use crate::reply::{Moves, Reply};
use ob_base::{Fault, Stop};
use ob_book::{Book, next_law};
use ob_post::laws::move_laws;
use ob_record::reached_law;
use ob_sql_write::stored_moves;
use ob_sweep::Timeline;
use sqlite::{Alter, Connection};
use std::alloc::Global;

/// Returns the reply of the accepted command of this number, from the tables. Nothing is written.
pub(crate) fn stored_reply<S: Alter>(
    alloc: Global,
    conn: &mut Connection<S>,
    no: u32,
) -> Result<Reply, Stop>
    requires mode { conn.old.in_transaction ≡ false }
    ensures mode { conn.new.in_transaction ≡ false }
    ensures faults { IfErr result IsStoreFault }
    ensures survives { Survives (state S.Store conn.old) (state S.Store conn.new) (λ _. ⊥) }
    ensures kept { (b : ActState) → KeepsBook (state S.Store conn.old) b
        → KeepsBook (state S.Store conn.new) b }
    ensures reply { HasCleanDisk (state S.Store conn.new) → IfOk result (λ r. (b : ActState)
        → KeepsBook (state S.Store conn.old) b → 1 ≤ no → no ≤ length b.accepted
        → reply_as r ≡ reply_of b no) }
    ensures cause { HasCleanDisk (state S.Store conn.new) → (b : ActState)
        → KeepsBook (state S.Store conn.old) b → 1 ≤ no → no ≤ length b.accepted
        → HasFaultCause (state S.Store conn.old) (state S.Store conn.new) result }
{
    next_law();
    move_laws();
    match stored_moves(alloc, conn, no) {
        Ok(moves) => Ok(Reply {
            no,
            moved: Moves::new(moves),
        }),
        Err(stop) => Err(stop),
    }
}

/// Returns the reply of the accepted command of this number; None if there is none. Nothing is
/// written.
pub(crate) fn reply_at<S: Alter, T: Timeline>(
    alloc: Global,
    conn: &mut Connection<S>,
    book: &Book<T>,
    no: u32,
) -> Result<Option<Reply>, Stop>
    requires mode { conn.old.in_transaction ≡ false }
    ensures mode { conn.new.in_transaction ≡ false }
    ensures faults { IfErr result IsStoreFault }
    ensures survives { Survives (state S.Store conn.old) (state S.Store conn.new) (λ _. ⊥) }
    ensures replies { HasCleanDisk (state S.Store conn.new) → (b : ActState)
        → KeepsBook (state S.Store conn.old) b → book.now.state ≡ b.book
        → Replies S.Store conn.new b no result }
    ensures cause { HasCleanDisk (state S.Store conn.new) → (b : ActState)
        → KeepsBook (state S.Store conn.old) b → book.now.state ≡ b.book
        → HasFaultCause (state S.Store conn.old) (state S.Store conn.new) result }
{
    reached_law();
    if no == 0 {
        return Ok(None);
    }
    if book.accepted() < no {
        return Ok(None);
    }
    match stored_reply(alloc, conn, no) {
        Ok(reply) => Ok(Some(reply)),
        Err(stop) => Err(stop),
    }
}
