//! The calls on the storage layer (`Keeper`), each as a part of a list of calls.
ghost use Rattle.std.specs.Prelude.{◌≡◌, ◌↔◌, [], ◌∷◌, List, Some, None, Err, true, false, IsSome, IfOk, IfErr, IsErr, OnOk, option_map};
ghost use Rattle.ob_stream.specs.Watching.{watched_bytes};
ghost use Rattle.ob_csv.specs.Rows.{rows_of};
ghost use Rattle.ob_book.specs.Acts.{ActState};
ghost use Rattle.ob_store.specs.Acting.{under};
ghost use Rattle.ob_store.specs.Calls.{Acted, Audited, Created, HasCreationCause, IfStoredOld, LeavesCurrentTables, Loads, MigratesOldTables, MigratesStoredBook, MigrationAnswers, MovesOut, OnOldTables, OnTables, Outdated, ReadAnswers, Replied, StoreFailed};
ghost use Rattle.ob_store.specs.Keepers.{IsClean, StoresNumbers, book_of};
ghost use Rattle.ob_import.specs.Reports.{HasCause, ImportOf, IsStoreFault, no_book};
ghost use Rattle.ob_desk.specs.Listening.{ServesStreams, has_failed, streams_left};
ghost use Rattle.ob_desk.specs.Serving.{Fails, Serves};
ghost use Rattle.ob_lists.specs.Standing.{MayBe, Stands, Told, served, told_by, told_by_import, told_by_stream};
ghost use Rattle.ob_lists.specs.Going.{ActsForCause, AuditsOne, Goes, LoadsOne, OfOne, PlansOne, RefusesOne, TellsOverList};
ghost use Rattle.ob_base.specs.declared.stop.Fault.{Fault as AFault};
ghost use Rattle.ob_base.specs.declared.stop.Refusal.{Refusal as ARefusal};

use ob_base::{Fault, Ref, Stop};
use ob_command::Command;
use ob_desk::{FaultLog, Listener, Served, Unserved};
use ob_http_routes::answers_law;
use ob_import::{ImportFault, ImportReport};
use ob_record::naming_law;
use ob_sql_rows::Table;
use ob_store::{Alter, Keeper, MoveSink, Reply, load_law};
use ob_stream::Watched;
use ob_sweep::Timeline;
use std::alloc::Global;
use std::io::{Read, Write};

/// Sends a command: its reply acknowledges it, and a store fault leaves it in doubt. If every state
/// that a crash may leave has the hidden row numbers 1, 2, 3 and so on, such a fault has a cause,
/// and the row numbers stay so. The answer is that of one of the books that the calls may have left.
pub fn act<S: Alter, T: Timeline>(
    keeper: &mut Keeper<S, T>,
    reference: Ref,
    command: Command,
) -> Result<Reply, Stop>
    ensures goes { Goes (told_by (under reference command) result) keeper.old keeper.new }
    ensures answers { IsClean keeper.new → (b : ActState) (told : List Told)
        → Stands (MayBe b told) keeper.old → OfOne (MayBe b told) keeper.old result
        (λ x. Acted keeper.old keeper.new x (under reference command) result) }
    ensures cause { IsClean keeper.new → (b : ActState) (told : List Told)
        → Stands (MayBe b told) keeper.old → StoresNumbers keeper.old
        → ActsForCause (MayBe b told) keeper.old keeper.new (under reference command) result }
    ensures numbered { (b : ActState) (told : List Told) → Stands (MayBe b told) keeper.old
        → StoresNumbers keeper.old → StoresNumbers keeper.new }
{
    keeper.act(reference, command)
}

/// Loads the book, which is one of those that the calls may have left. Hidden row numbers that a
/// crash may leave stay as they were.
pub fn load<S: Alter, T: Timeline>(keeper: &mut Keeper<S, T>) -> Result<(), Stop>
    ensures goes { Goes [] keeper.old keeper.new }
    ensures loads { IsClean keeper.new → (b : ActState) (told : List Told)
        → Stands (MayBe b told) keeper.old → LoadsOne (MayBe b told) keeper.old keeper.new result }
    ensures load { Loads keeper.old keeper.new result }
    ensures numbered { StoresNumbers keeper.old → StoresNumbers keeper.new }
{
    load_law::<S>();
    keeper.load()
}

/// Compares the tables. None of them differs from those of the books that the calls may have left.
pub fn audit<S: Alter, T: Timeline>(keeper: &mut Keeper<S, T>) -> Result<Option<Table>, Stop>
    ensures goes { Goes [] keeper.old keeper.new }
    ensures audits { IsClean keeper.new → (b : ActState) (told : List Told)
        → Stands (MayBe b told) keeper.old → AuditsOne (MayBe b told) keeper.old keeper.new result }
    // what the audit promises over any tables
    ensures found { OnOk result (book_of keeper.new ≡ book_of keeper.old) }
    ensures answers { ReadAnswers keeper.old keeper.new result }
    ensures audited { OnTables keeper.old keeper.new (Audited keeper.old keeper.new result) }
    ensures outdated { OnOldTables keeper.old keeper.new (Outdated keeper.old keeper.new result) }
{
    naming_law();
    keeper.audit()
}

/// Asks for a stored reply, which is that of one of the books that the calls may have left.
pub fn reply_of<S: Alter, T: Timeline>(
    keeper: &mut Keeper<S, T>,
    no: u32,
) -> Result<Option<Reply>, Stop>
    ensures goes { Goes [] keeper.old keeper.new }
    // and where the store is reported to have failed, it has
    ensures replies { IsClean keeper.new → (b : ActState) (told : List Told)
        → Stands (MayBe b told) keeper.old → OfOne (MayBe b told) keeper.old result
        (λ x. Replied keeper.old keeper.new x no result
        × IfErr result (λ stop. stop ≡ Stop.Fault Fault.Store
        → StoreFailed keeper.old keeper.new)) }
{
    keeper.reply_of(no)
}

/// Asks what a command would do. The store and the book stay as they are, and what is answered holds
/// of one of the books that the calls may have left.
pub fn plan<S: Alter, T: Timeline>(
    keeper: &mut Keeper<S, T>,
    command: &Command,
) -> Result<Vec<u8>, Stop>
    ensures goes { Goes [] keeper.old keeper.new }
    ensures plans { (b : ActState) (told : List Told) → Stands (MayBe b told) keeper.old
        → IfOk result (λ text. PlansOne (MayBe b told) command.now text.items) }
    ensures refuses { (b : ActState) (told : List Told) → Stands (MayBe b told) keeper.old
        → (why : ARefusal) → result ≡ Err (Stop.Refused why)
        → RefusesOne (MayBe b told) command.now why }
    ensures reopen { (book_of keeper.old ≡ None) ↔ (result ≡ Err (Stop.Fault Fault.Reopen)) }
    ensures err { IsSome (book_of keeper.old) → (fault : AFault) → result ≡ Err (Stop.Fault fault)
        → fault ≡ Fault.OutOfMemory }
{
    keeper.plan(command)
}

/// Gives the amounts moved by the accepted commands to a sink: those of one of the books that the
/// calls may have left.
pub fn moves_out<S: Alter, T: Timeline, V: MoveSink>(
    keeper: &mut Keeper<S, T>,
    sink: &mut V,
) -> Result<u64, Stop>
    ensures goes { Goes [] keeper.old keeper.new }
    ensures moves { IsClean keeper.new → (b : ActState) (told : List Told)
        → Stands (MayBe b told) keeper.old → OfOne (MayBe b told) keeper.old result
        (λ x. MovesOut V.takes keeper.old keeper.new sink.old sink.new x result) }
{
    keeper.moves_out(sink)
}

/// Migrates tables of version 1 to version 2.
pub fn migrate<S: Alter, T: Timeline>(keeper: &mut Keeper<S, T>) -> Result<bool, Stop>
    ensures goes { Goes [] keeper.old keeper.new }
    // what the migration promises over any tables
    ensures goes_on { MigrationAnswers keeper.old keeper.new result }
    ensures migrated { OnOldTables keeper.old keeper.new
        (MigratesOldTables keeper.old keeper.new result) }
    ensures current { OnTables keeper.old keeper.new (LeavesCurrentTables keeper.old keeper.new
        result) }
    ensures kept { IfStoredOld keeper.old keeper.new (λ b. MigratesStoredBook keeper.new b result) }
{
    keeper.migrate()
}

/// Tries to create a book where one may exist: the call fails if there is one, and what existed
/// stays.
pub fn create_again<S: Alter, T: Timeline>(
    keeper: &mut Keeper<S, T>,
    first: &[u8],
    days: u16,
    zone: &[u8],
) -> Result<(), Stop>
    ensures goes { Goes [] keeper.old keeper.new }
    ensures refused { IsClean keeper.new → (b : ActState) (told : List Told)
        → Stands (MayBe b told) keeper.old → IsErr result }
    ensures created { Created keeper.old keeper.new first.now days zone.now result }
    ensures cause { IsClean keeper.new → HasCreationCause keeper.old keeper.new first.now days
        zone.now result }
{
    keeper.create(first, days, zone)
}

/// Imports the commands of a CSV text and reports how many rows it took, up to its end or to a
/// fault. If hidden row numbers run on they still do, and a store fault has a cause; this holds for
/// the three calls below too.
pub fn import_text<S: Alter, T: Timeline>(
    alloc: Global,
    text: &[u8],
    keeper: &mut Keeper<S, T>,
) -> Result<ImportReport, ImportFault>
    ensures goes { Goes (told_by_import (Some (rows_of text.now)) result) keeper.old keeper.new }
    ensures reopen { (book_of keeper.old ≡ None) ↔ (result ≡ no_book) }
    ensures cause { IsSome (book_of keeper.old) → IfErr result (λ e. HasCause e.fault ⊥) }
    ensures tells { TellsOverList keeper.old keeper.new (IsStoreFault result) }
{
    ob_import::import_text(alloc, text, keeper)
}

/// Imports the commands of the CSV text that a reader gives.
pub fn import<R: Read, S: Alter, T: Timeline>(
    alloc: Global,
    reader: &mut Watched<R>,
    keeper: &mut Keeper<S, T>,
) -> Result<ImportReport, ImportFault>
    ensures goes { Goes (told_by_import (option_map rows_of (watched_bytes R.remaining reader.old))
        result) keeper.old keeper.new }
    ensures import { ImportOf R.remaining keeper.old keeper.new reader.old reader.new result }
    ensures tells { TellsOverList keeper.old keeper.new (IsStoreFault result) }
{
    ob_import::import(alloc, reader, keeper)
}

/// Serves the requests of a stream and reports how they were answered, up to its end or to a fault.
pub fn serve_stream<R: Read, W: Write, S: Alter, T: Timeline>(
    alloc: Global,
    reader: &mut Watched<R>,
    writer: &mut Watched<W>,
    keeper: &mut Keeper<S, T>,
) -> Result<Served, Fault>
    ensures goes { Goes (told_by_stream (watched_bytes R.remaining reader.old)
        (watched_bytes W.contents writer.old) (watched_bytes W.contents writer.new) result)
        keeper.old keeper.new }
    ensures serves { IfOk result (λ served. Serves (watched_bytes R.remaining reader.old)
        (watched_bytes W.contents writer.old) (watched_bytes W.contents writer.new) keeper.old
        keeper.new served.requests) }
    ensures fails { IfErr result (Fails (watched_bytes R.remaining reader.old)
        (watched_bytes R.remaining reader.new) (watched_bytes W.contents writer.old)
        (watched_bytes W.contents writer.new) reader.new writer.new keeper.old keeper.new) }
    ensures tells { TellsOverList keeper.old keeper.new (result ≡ Err Fault.Store) }
{
    answers_law();
    ob_desk::serve_stream(alloc, reader, writer, keeper)
}

/// Serves the streams of a listener. No contract knows the bytes of these, so all that is recorded
/// is that some commands may have been applied, how many streams were served, and why no more.
pub fn run_serve<S: Alter, T: Timeline, L: FaultLog>(
    alloc: Global,
    listener: &mut Listener<'_>,
    keeper: &mut Keeper<S, T>,
    log: &mut L,
) -> Result<(), Unserved>
    ensures goes { Goes (served ∷ []) keeper.old keeper.new }
    ensures failed { has_failed listener.old ≡ false → (has_failed listener.new ≡ true)
        ↔ (result ≡ Err Unserved.Listener) }
    ensures served { ServesStreams L.tells keeper.old keeper.new log.old log.new
        (streams_left listener.old) (streams_left listener.new) result }
    ensures tells { TellsOverList keeper.old keeper.new (result ≡ Err Unserved.Store) }
{
    ob_desk::run_serve(alloc, listener, keeper, log)
}
