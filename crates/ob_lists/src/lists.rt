//! Some lists of calls, each with what its last call answers or leaves.
ghost use Rattle.std.specs.Prelude.{◌++◌, List, Some, IsErr, OnOk};
ghost use Rattle.ob_csv.specs.Rows.{rows_of};
ghost use Rattle.ob_book.specs.Acts.{ActState};
ghost use Rattle.ob_store.specs.Acting.{under};
ghost use Rattle.ob_store.specs.Keepers.{HoldsNothing, IsClean};
ghost use Rattle.ob_lists.specs.Standing.{MayBe, Stands, Told, told_by, told_by_import};
ghost use Rattle.ob_lists.specs.Going.{Begun, BegunNumbered, CreatedFirst, CreatedLast, Finds};

use crate::calls::{act, audit, create_again, import_text, load, migrate};
use crate::laws::restart_law;
use ob_base::{Ref, Stop};
use ob_command::Command;
use ob_import::{ImportFault, ImportReport};
use ob_sql_rows::Table;
use ob_store::{Alter, Keeper, Reply, crash_law, load_law};
use ob_sweep::Timeline;
use std::alloc::Global;

/// The end of a process, and a `Keeper` that another process makes over what the first one left.
pub trait Restart<S: Alter, R: Alter, T: Timeline> {
    ghost use Rattle.ob_lists.specs.Going.{Restarts};

    /// The `Keeper` of the process after a crash; the crash comes at a moment at which no call is
    /// running.
    fn restart(&mut self, keeper: Keeper<S, T>) -> Keeper<R, T>
        ensures { Restarts keeper result };
}

/// A command, a load, and another load: whatever the first two answered, the last finds a book that
/// contains the command if it was acknowledged. Here and in the lists below, the last load has a
/// store fault only with a cause, and reports version 1 only if the tables are of it.
pub fn act_load_load<S: Alter, T: Timeline>(
    keeper: &mut Keeper<S, T>,
    reference: Ref,
    command: Command,
) -> (Result<Reply, Stop>, Result<(), Stop>)
    ensures { IsClean keeper.new → (b : ActState) (told : List Told)
        → Stands (MayBe b told) keeper.old → Finds (MayBe b
        (told_by (under reference command) result.0 ++ told)) keeper.new result.1 }
{
    let sent = act(keeper, reference, command);
    let _ = load(keeper);
    (sent, load(keeper))
}

/// A command, and then a new book while one exists: the second call is refused, or it fails, as
/// `create` states for such a period.
pub fn act_create<S: Alter, T: Timeline>(
    keeper: &mut Keeper<S, T>,
    reference: Ref,
    command: Command,
    first: &[u8],
    days: u16,
    zone: &[u8],
) -> (Result<Reply, Stop>, Result<(), Stop>)
    ensures stands { IsClean keeper.new → (b : ActState) (told : List Told)
        → Stands (MayBe b told) keeper.old → IsErr result.1
        × Stands (MayBe b (told_by (under reference command) result.0 ++ told)) keeper.new }
    ensures created { CreatedLast keeper.new first.now days zone.now result.1 }
{
    let sent = act(keeper, reference, command);
    (sent, create_again(keeper, first, days, zone))
}

/// A new book in an empty database, a crash, and a load. The load finds the book that was created;
/// if the store failed, it finds that book or none; otherwise it finds none.
pub fn create_restart_load<S: Alter, R: Alter, T: Timeline, C: Restart<S, R, T>>(
    mut keeper: Keeper<S, T>,
    crash: &mut C,
    first: &[u8],
    days: u16,
    zone: &[u8],
) -> (Result<(), Stop>, Keeper<R, T>, Result<(), Stop>)
    ensures { IsClean result.1 → HoldsNothing keeper → Begun first.now days zone.now result.0
        result.1 result.2 }
{
    load_law::<R>();
    let made = keeper.create(first, days, zone);
    let mut next = crash.restart(keeper);
    let found = next.load();
    (made, next, found)
}

/// A new book, a command, a crash and a load. If the book was created, it exists afterwards, with
/// the command if that was acknowledged, and every state that a crash may leave has the hidden row
/// numbers 1, 2, 3 and so on. So if the next command ends in a store fault, that fault has a cause,
/// as the contract of `act` states.
pub fn create_act_restart_load<S: Alter, R: Alter, T: Timeline, C: Restart<S, R, T>>(
    mut keeper: Keeper<S, T>,
    crash: &mut C,
    first: &[u8],
    days: u16,
    zone: &[u8],
    reference: Ref,
    command: Command,
) -> (Result<(), Stop>, Result<Reply, Stop>, Keeper<R, T>)
    ensures begun { IsClean result.2 → OnOk result.0 (BegunNumbered first.now days zone.now
        (told_by (under reference command) result.1) result.2) }
    ensures created { CreatedFirst keeper first.now days zone.now result.0 }
{
    restart_law::<S, T, R, T>();
    crash_law::<S, R>();
    let made = keeper.create(first, days, zone);
    let sent = act(&mut keeper, reference, command);
    let mut next = crash.restart(keeper);
    let _ = load(&mut next);
    (made, sent, next)
}

/// A migration, a crash, another migration, and a load: it finds the book, in the tables of either
/// version.
pub fn migrate_restart_migrate_load<S: Alter, R: Alter, T: Timeline, C: Restart<S, R, T>>(
    mut keeper: Keeper<S, T>,
    crash: &mut C,
) -> (Keeper<R, T>, Result<(), Stop>)
    ensures { IsClean result.0 → (b : ActState) (told : List Told) → Stands (MayBe b told) keeper
        → Finds (MayBe b told) result.0 result.1 }
{
    restart_law::<S, T, R, T>();
    let _ = migrate(&mut keeper);
    let mut next = crash.restart(keeper);
    let _ = migrate(&mut next);
    let found = load(&mut next);
    (next, found)
}

/// A migration, a load and an audit: whatever the audit answers, the book is still stored.
pub fn migrate_load_audit<S: Alter, T: Timeline>(
    keeper: &mut Keeper<S, T>,
) -> Result<Option<Table>, Stop>
    ensures { IsClean keeper.new → (b : ActState) (told : List Told)
        → Stands (MayBe b told) keeper.old → Stands (MayBe b told) keeper.new }
{
    let _ = migrate(keeper);
    let _ = load(keeper);
    audit(keeper)
}

/// A command, an import, a crash, and a load: it finds a book that contains the command if it was
/// acknowledged, and what the import may have made of it.
pub fn act_import_restart_load<S: Alter, R: Alter, T: Timeline, C: Restart<S, R, T>>(
    alloc: Global,
    mut keeper: Keeper<S, T>,
    crash: &mut C,
    reference: Ref,
    command: Command,
    text: &[u8],
) -> (
    Result<Reply, Stop>,
    Result<ImportReport, ImportFault>,
    Keeper<R, T>,
    Result<(), Stop>,
)
    ensures { IsClean result.2 → (b : ActState) (told : List Told) → Stands (MayBe b told) keeper
        → Finds (MayBe b (told_by_import (Some (rows_of text.now)) result.1 ++
        (told_by (under reference command) result.0 ++ told))) result.2 result.3 }
{
    restart_law::<S, T, R, T>();
    let sent = act(&mut keeper, reference, command);
    let done = import_text(alloc, text, &mut keeper);
    let mut next = crash.restart(keeper);
    let found = load(&mut next);
    (sent, done, next, found)
}

/// A new book, an import, a crash and a load. If the book was created, it exists afterwards, with
/// what the import may have made of it, and every state that a crash may leave has the hidden row
/// numbers 1, 2, 3 and so on. So if the next command ends in a store fault, that fault has a cause,
/// as the contract of `act` states.
pub fn create_import_restart_load<S: Alter, R: Alter, T: Timeline, C: Restart<S, R, T>>(
    alloc: Global,
    mut keeper: Keeper<S, T>,
    crash: &mut C,
    first: &[u8],
    days: u16,
    zone: &[u8],
    text: &[u8],
) -> (
    Result<(), Stop>,
    Result<ImportReport, ImportFault>,
    Keeper<R, T>,
)
    ensures begun { IsClean result.2 → OnOk result.0 (BegunNumbered first.now days zone.now
        (told_by_import (Some (rows_of text.now)) result.1) result.2) }
    ensures created { CreatedFirst keeper first.now days zone.now result.0 }
{
    restart_law::<S, T, R, T>();
    crash_law::<S, R>();
    let made = keeper.create(first, days, zone);
    let done = import_text(alloc, text, &mut keeper);
    let mut next = crash.restart(keeper);
    let _ = load(&mut next);
    (made, done, next)
}
