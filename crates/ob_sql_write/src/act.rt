//! Commits the rows of an accepted command in one transaction.
ghost use Rattle.std.specs.Prelude.{◌≡◌, false, OnOk, IfErr};
ghost use Rattle.sqlite.specs.Held.{state};
ghost use Rattle.sqlite.specs.State.{HasCleanDisk, Survives};
ghost use Rattle.ob_base.specs.Stop.{out_of_memory};
ghost use Rattle.ob_sql_rows.specs.Steps.{IsStoreFault};
ghost use Rattle.ob_sql_rows.specs.Rows.{Tables};
ghost use Rattle.ob_sql_write.specs.Acts.{CanWrite, LetsAct, NeedsRows, with_act};
ghost use Rattle.ob_sql_write.specs.Keeps.{HasCommitCause, Keeps, KeepsEither, KeepsNumbers, LeavesChanged};

use crate::change::write_rows;
use crate::moves::write_moves;
use ob_base::{Fault, Stop};
use ob_post::{Moved, Postings};
use ob_sql_rows::add_command;
use ob_state::Resolved;
use sqlite::{Alter, Connection};

/// An accepted command, as the tables store it.
#[derive(Clone, Copy)]
pub struct Act<'t> {
    /// Its number, from 1.
    pub no: u32,
    /// Its reference.
    pub reference: &'t [u8],
    /// Its body text.
    pub body: &'t [u8],
    /// The command with numbers in place of names. It determines which rows change, apart from the
    /// command's own row and those of its amounts.
    pub resolved: &'t Resolved,
    /// The changes of amounts that it makes.
    pub moves: &'t [Moved],
}

/// Commits the rows of an accepted command, all or none: the rows that it changes, its own row, and
/// the rows of the amounts that it changes.
pub fn commit_act<S: Alter>(
    conn: &mut Connection<S>,
    act: &Act<'_>,
    postings: &Postings,
) -> Result<(), Stop>
    requires mode { conn.old.in_transaction ≡ false }
    requires can { CanWrite postings.now act.now }
    ensures mode { conn.new.in_transaction ≡ false }
    ensures faults { IfErr result IsStoreFault }
    ensures done { OnOk result ((t : Tables) → Keeps (state S.Store conn.old) t
        → NeedsRows postings.now act.now t → Keeps (state S.Store conn.new)
        (with_act postings.now act.now t)) }
    ensures undone { IfErr result (λ stop. stop ≡ out_of_memory
        → (t : Tables) → Keeps (state S.Store conn.old) t → Keeps (state S.Store conn.new) t) }
    ensures either { IfErr result (λ stop. (t : Tables) → Keeps (state S.Store conn.old) t
        → NeedsRows postings.now act.now t
        → KeepsEither (state S.Store conn.new) t (with_act postings.now act.now t)) }
    // if the rules of the tables admit the rows, `Fault::Store` means that the store failed or
    // rolled the transaction back
    ensures cause { IfErr result (λ stop. stop ≡ Stop.Fault Fault.Store → HasCleanDisk (state S.Store conn.new)
        → (t : Tables) → Keeps (state S.Store conn.old) t → KeepsNumbers (state S.Store conn.old)
        → NeedsRows postings.now act.now t → LetsAct act.now t
        → HasCommitCause S.Store (state S.Store conn.old) (state S.Store conn.new)
        (with_act postings.now act.now t)) }
    // the hidden row numbers stay 1, 2, 3 and so on
    ensures numbered { (t : Tables) → Keeps (state S.Store conn.old) t → NeedsRows postings.now act.now t
        → KeepsNumbers (state S.Store conn.old) → KeepsNumbers (state S.Store conn.new) }
    // a crash leaves what it could leave before, or that with the rows of the command
    ensures survives { Survives (state S.Store conn.old) (state S.Store conn.new)
        (LeavesChanged (state S.Store conn.old) (NeedsRows postings.now act.now)
        (with_act postings.now act.now)) }
{
    // an open connection shows a complete database
    let _schema = conn.schema();
    let mut tx = conn.transaction();
    write_rows(&mut tx, act.resolved)?;
    add_command(&mut tx, act.no, act.reference, act.body)?;
    write_moves(&mut tx, act.no, postings, act.moves)?;
    match tx.commit() {
        Ok(()) => Ok(()),
        Err(_) => Err(Stop::Fault(Fault::Store)),
    }
}
