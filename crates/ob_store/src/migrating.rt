//! Upgrades the tables of version 1 to those of version 2.
ghost use Rattle.std.specs.Prelude.{◌≡◌, ◌↔◌, ◌≤◌, false, true, length, Ok, IsTrue, IfOk, IfErr};
ghost use Rattle.ob_base.specs.Stop.{out_of_memory};
ghost use Rattle.ob_sql_read.specs.Listing.{filed_of};
ghost use Rattle.sqlite.specs.Held.{state};
ghost use Rattle.sqlite.specs.State.{HasCleanDisk, Survives};
ghost use Rattle.ob_sql_check.specs.OldTables.{new_texts, texts_of};
ghost use Rattle.ob_record.specs.Tables.{tables_of};
ghost use Rattle.ob_sql_write.specs.Keeps.{KeepsEitherIn, KeepsIn, KeepsNumbers};
ghost use Rattle.ob_sql_rows.specs.Rows.{Tables};
ghost use Rattle.ob_sql_rows.specs.Steps.{IsStoreFault};
ghost use Rattle.ob_sql_rows.specs.declared.version.Version.{Version as AVersion};
ghost use Rattle.ob_store.specs.Differing.{NoneSo};
ghost use Rattle.ob_store.specs.Finding.{Finds, IsNamed};
ghost use Rattle.ob_store.specs.Laws.{Laws};
ghost use Rattle.ob_store.specs.Leading.{IsLedIn};
ghost use Rattle.ob_store.specs.Migrating.{HoldsNoOldBook, MigratesOn, ShowsVersion};
ghost use Rattle.ob_store.specs.Shapes.{IsShapeOf};
ghost use Rattle.ob_store.specs.Upgrading.{HasOldParts, HasOldRows, HasWriteCause, IsTold, IsUntold, LeavesWritten, Migrates, OfUpgraded, Upgradable, Upgraded};
ghost use Rattle.ob_store.specs.Versions.{Asks};

use crate::led::{Led, follow};
use crate::named::{BAD_BOOK, Named, read_named};
use crate::version::{NEW, OLD, OLD_TABLES, has_shape, look_at};
use ob_base::{Fault, Stop};
use ob_book::next_law;
use ob_record::naming_law;
use ob_sql_check::{holds_part, new_bodies, upgrade_law};
use ob_sql_read::{Silent, are_apart, are_distinct, has_version, reaching_law};
use ob_sql_rows::{Table, Version};
use ob_sql_write::{NewBody, commit_upgrade};
use ob_sweep::Timeline;
use ob_upgrade::version_law;
use sqlite::{Alter, Connection};
use std::alloc::Global;

/// The tables of version 1, except those of commands and of moved amounts.
const OLD_PARTS: [Table; 8] = [
    Table::Meta,
    Table::Cause,
    Table::Node,
    Table::Device,
    Table::Customer,
    Table::Entry,
    Table::Mark,
    Table::Posting,
];

/// What is written to upgrade the tables of version 1.
#[derive(Drop)]
pub(crate) struct Upgrade {
    /// The new body texts of commands.
    pub(crate) bodies: Vec<NewBody>,
    /// The number of devices.
    pub(crate) devices: u16,
}

/// States which book the commands of a book of version 1 give, and what their rows determine. Does
/// nothing at run time.
fn old_books_law()
    ensures { Laws AVersion.One }
{
    next_law();
    naming_law();
    reaching_law();
    version_law();
    upgrade_law();
}

/// Whether the heading states version 2. If it doesn't, it states version 1 and the tables have the
/// names of version 1; anything else is refused as `BadBook`.
fn tell_heading<S: Alter>(conn: &mut Connection<S>, is_old: bool) -> Result<bool, Stop>
    requires { IsTrue is_old ↔ IsShapeOf AVersion.One conn.old.schema }
    ensures finds { (v : AVersion) → Finds S.Store v (IsTold v) (IsUntold v) conn.old conn.new
        result }
    ensures shape { IfOk result (λ is. is ≡ false → IsTrue is_old) }
    ensures told { HasCleanDisk (state S.Store conn.new)
        → IfOk result (λ is. IsTrue is → ShowsVersion 2 (state S.Store conn.old)
        (state S.Store conn.new)) }
{
    match has_version(conn, NEW) {
        Ok(true) => return Ok(true),
        Ok(false) => {}
        Err(stop) => return Err(stop),
    }
    match has_version(conn, OLD) {
        Ok(true) => {}
        Ok(false) => return Err(BAD_BOOK),
        Err(stop) => return Err(stop),
    }
    if is_old { Ok(false) } else { Err(BAD_BOOK) }
}

/// Whether the heading states version 2, as `tell_heading`; checks first that the connection is
/// open. Nothing is written.
fn tells_new<S: Alter>(conn: &mut Connection<S>) -> Result<bool, Stop>
    ensures finds { (v : AVersion) → Finds S.Store v (IsTold v) (IsUntold v) conn.old conn.new
        result }
    ensures asks { Asks S.Store conn.old conn.new result }
    ensures first { IsTrue (state S.Store conn.old).is_open → (v : AVersion) (t u : Tables)
        → KeepsEitherIn v (state S.Store conn.old) t u → KeepsIn v (state S.Store conn.old) t }
    ensures shape { HasCleanDisk (state S.Store conn.new)
        → IfOk result (λ is. is ≡ false → IsShapeOf AVersion.One conn.old.schema) }
    ensures told { HasCleanDisk (state S.Store conn.new)
        → IfOk result (λ is. IsTrue is → ShowsVersion 2 (state S.Store conn.old)
        (state S.Store conn.new)) }
{
    match look_at(conn) {
        Ok(()) => {}
        Err(stop) => return Err(stop),
    }
    let is_old = has_shape(conn, &OLD_TABLES);
    tell_heading(conn, is_old)
}

/// Whether the tables of version 1, except those of commands and of moved amounts, have the rows of
/// a replayed book.
fn has_old_rows<S: Alter, T: Timeline>(conn: &mut Connection<S>, led: &Led<T>) -> Result<bool, Stop>
    requires layout { led.now.layout ≡ led.now.book.state.network }
    ensures { Finds S.Store AVersion.One (λ trees is. IsTrue is
        ↔ HasOldRows trees led.now.book.state) NoneSo conn.old conn.new result }
{
    'parts: for at in 0..OLD_PARTS.len() {
        let part = OLD_PARTS[at];
        match holds_part(conn, &led.book, &led.layout, Version::One, part) {
            Ok(true) => {}
            Ok(false) => return Ok(false),
            Err(stop) => return Err(stop),
        }
    }
    Ok(true)
}

/// Refuses a replayed book as `BadBook` if the tables in the store aren't its tables of version 1.
/// Nothing is written.
fn check_old<S: Alter, T: Timeline>(conn: &mut Connection<S>, led: &Led<T>) -> Result<(), Stop>
    requires layout { led.now.layout ≡ led.now.book.state.network }
    ensures { Finds S.Store AVersion.One (λ trees done. HasOldParts trees led.now.book.state)
        (λ trees. ¬ (HasOldRows trees led.now.book.state)) conn.old conn.new result }
{
    match has_old_rows(conn, led) {
        Ok(true) => {}
        Ok(false) => return Err(BAD_BOOK),
        Err(stop) => return Err(stop),
    }
    match are_apart(conn) {
        Ok(true) => Ok(()),
        // two rows have the same row number: the file is corrupt
        Ok(false) => Err(Stop::Fault(Fault::Store)),
        Err(stop) => Err(stop),
    }
}

/// Replays the commands of version 1 on a new book, and compares the changes that they make with
/// their table.
fn lead_old<S: Alter, T: Timeline>(
    alloc: Global,
    conn: &mut Connection<S>,
    named: &Named,
) -> Result<Led<T>, Stop>
    ensures layout { IfOk result (λ led. led.layout ≡ led.book.state.network) }
    // if the commands were read from the same tables before
    ensures finds { (first : _) → Finds S.Store AVersion.One (IsNamed AVersion.One) HoldsNoOldBook
        first conn.old (Ok named.now) → Finds S.Store AVersion.One
        (λ trees led. IsNamed AVersion.One trees named.now
        × IsLedIn AVersion.One trees led.book.state true true) HoldsNoOldBook first conn.new result }
{
    old_books_law();
    upgrade_law();
    if !named.counted {
        return Err(BAD_BOOK);
    }
    match are_distinct(alloc, &named.commands) {
        Ok(true) => {}
        Ok(false) => return Err(BAD_BOOK),
        Err(stop) => return Err(stop),
    }
    match follow(alloc, conn, named, Version::One, &mut Silent) {
        Ok(Some(led)) => Ok(led),
        Ok(None) => Err(BAD_BOOK),
        Err(stop) => Err(stop),
    }
}

/// Returns today's body texts of the commands that add devices, and the number of devices.
fn upgrade_of<T: Timeline>(alloc: Global, named: &Named, led: &Led<T>) -> Result<Upgrade, Stop>
    requires few { length named.now.commands.items ≤ 1_000_000 }
    ensures texts { IfOk result (λ it. texts_of it.bodies.items
        ≡ new_texts 1 (filed_of named.now.commands.items)) }
    ensures devices { IfOk result (λ it. it.devices ≡ length led.now.book.state.network.devices) }
    ensures faults { IfErr result (λ stop. stop ≡ out_of_memory) }
{
    let devices = led.book.net().devices();
    match new_bodies(alloc, &named.commands) {
        Ok(bodies) => Ok(Upgrade { bodies, devices }),
        Err(stop) => Err(stop),
    }
}

/// Returns what is to be written to upgrade the tables of version 1, if they are those of a book.
/// Nothing is written.
fn find_old<S: Alter, T: Timeline>(alloc: Global, conn: &mut Connection<S>) -> Result<Upgrade, Stop>
    ensures { Finds S.Store AVersion.One Upgradable HoldsNoOldBook conn.old conn.new result }
{
    old_books_law();
    upgrade_law();
    let named = match read_named(alloc, conn, Version::One) {
        Ok(named) => named,
        Err(stop) => return Err(stop),
    };
    let led: Led<T> = match lead_old(alloc, conn, &named) {
        Ok(led) => led,
        Err(stop) => return Err(stop),
    };
    match check_old(conn, &led) {
        Ok(()) => upgrade_of(alloc, &named, &led),
        Err(stop) => Err(stop),
    }
}

/// Upgrades the tables of version 1 of the book that was found, in one transaction.
fn write_upgrade<S: Alter>(conn: &mut Connection<S>, it: &Upgrade) -> Result<(), Stop>
    requires mode { conn.old.in_transaction ≡ false }
    ensures mode { conn.new.in_transaction ≡ false }
    ensures faults { IfErr result IsStoreFault }
    ensures survives { Survives (state S.Store conn.old) (state S.Store conn.new)
        (LeavesWritten S.Store conn.old it.now) }
    ensures upgraded { HasCleanDisk (state S.Store conn.new)
        → OfUpgraded S.Store conn.old it.now (λ b. Upgraded S.Store conn.old conn.new b result) }
    // `Fault::Store` is returned only if the store failed, or rolled the rows of version 2 back
    ensures cause { HasCleanDisk (state S.Store conn.new) → KeepsNumbers (state S.Store conn.old)
        → OfUpgraded S.Store conn.old it.now
        (λ b. HasWriteCause S.Store conn.old conn.new (tables_of b) result) }
    ensures numbered { KeepsNumbers (state S.Store conn.old) → OfUpgraded S.Store conn.old it.now
        (λ b. KeepsNumbers (state S.Store conn.new)) }
{
    upgrade_law();
    // outside a transaction a connection shows what was committed, and an open connection shows a
    // complete database
    prove!(conn.is_autocommit());
    let _schema = conn.schema();
    commit_upgrade(conn, &it.bodies, it.devices)
}

/// Upgrades the tables of version 1 to version 2. Returns true; or false, without writing, if the
/// heading states version 2.
pub(crate) fn migrate_on<S: Alter, T: Timeline>(
    alloc: Global,
    conn: &mut Connection<S>,
) -> Result<bool, Stop>
    requires mode { conn.old.in_transaction ≡ false }
    ensures mode { conn.new.in_transaction ≡ false }
    ensures migrates { Migrates S.Store conn.old conn.new result }
    ensures goes_on { MigratesOn S.Store conn.old conn.new result }
{
    match tells_new(conn) {
        Ok(true) => return Ok(false),
        Ok(false) => {}
        Err(stop) => return Err(stop),
    }
    let found = match find_old::<S, T>(alloc, conn) {
        Ok(found) => found,
        Err(stop) => return Err(stop),
    };
    match write_upgrade(conn, &found) {
        Ok(()) => Ok(true),
        Err(stop) => Err(stop),
    }
}
