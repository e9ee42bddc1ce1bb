//! Exports the changes of amounts that accepted commands made.
ghost use Rattle.std.specs.Prelude.{◌≡◌, ◌≢◌, ◌↔◌, ℕ, None, Err, IsSome, IfErr, OnOk};
ghost use Rattle.ob_stream.specs.Retrying.{Tries, TriesAnew};
ghost use Rattle.ob_stream.specs.Streams.{retries_left};
ghost use Rattle.ob_stream.specs.Watching.{HasJustFailed, watched_bytes};
ghost use Rattle.ob_store.specs.Calls.{CommitsNothing, IfHeld, IfStored, WasClean};
ghost use Rattle.ob_store.specs.Keeping.{IsBookAfter};
ghost use Rattle.ob_store.specs.MovingOut.{all_moves};
ghost use Rattle.ob_store.specs.Keepers.{book_of};
ghost use Rattle.ob_jobs.specs.Text.{lines_of, moves_text};
ghost use Rattle.ob_jobs.specs.Exporting.{Exports};

use crate::lines::Lines;
use ob_base::{Fault, Stop};
use ob_store::{Alter, Keeper};
use ob_stream::{Retries, Watched, write_text};
use ob_sweep::Timeline;
use std::alloc::Global;
use std::io::Write;

/// Writes a line for each change of an amount by an accepted command, and returns how many there
/// are.
fn write_lines<W: Write, S: Alter, T: Timeline>(
    alloc: Global,
    keeper: &mut Keeper<S, T>,
    writer: &mut Watched<W>,
    retries: Retries,
) -> Result<u64, Stop>
    requires { IsSome (book_of keeper.old) }
    ensures opened { result ≢ Err (Stop.Fault Fault.Reopen) }
    ensures output { result ≡ Err (Stop.Fault Fault.Output) → HasJustFailed writer.new }
    ensures kept { OnOk result (book_of keeper.new ≡ book_of keeper.old) }
    ensures dropped { IfErr result (IsBookAfter (book_of keeper.old) (book_of keeper.new)) }
    ensures clean { WasClean keeper.old keeper.new }
    ensures survives { CommitsNothing keeper.old keeper.new }
    ensures exports { IfStored keeper.old keeper.new (λ b. Exports W.contents keeper.old keeper.new
        (watched_bytes W.contents writer.old) writer.new b (lines_of (all_moves b)) result) }
    ensures tries { (left : ℕ) × Tries (retries_left retries) left writer.old writer.new result }
{
    let mut lines = Lines::new(alloc, writer, retries);
    keeper.moves_out(&mut lines)
}

/// Writes the changes of amounts by the accepted commands: the header `cmd,dim,key,delta`, and then
/// a line for each change, by number, dimension and key, as `26,cause,3,-1200`. Returns the number
/// of changes. `Fault::Reopen` if there is no book, and then nothing is written; `Fault::Output` if
/// the writer fails. After a fault of the store the keeper has no book; otherwise it has the book
/// that it had. Interrupted writes are repeated, 65,536 times in all.
pub fn export_moves<W: Write, S: Alter, T: Timeline>(
    alloc: Global,
    keeper: &mut Keeper<S, T>,
    writer: &mut Watched<W>,
) -> Result<u64, Stop>
    ensures reopen { (book_of keeper.old ≡ None) ↔ (result ≡ Err (Stop.Fault Fault.Reopen)) }
    ensures unopened { book_of keeper.old ≡ None → (keeper.new ≡ keeper.old)
        × (writer.new ≡ writer.old) }
    ensures output { result ≡ Err (Stop.Fault Fault.Output) → HasJustFailed writer.new }
    ensures kept { OnOk result (book_of keeper.new ≡ book_of keeper.old) }
    ensures dropped { IfErr result (IsBookAfter (book_of keeper.old) (book_of keeper.new)) }
    ensures clean { WasClean keeper.old keeper.new }
    ensures survives { CommitsNothing keeper.old keeper.new }
    ensures exports { IfHeld keeper.old keeper.new (λ b. Exports W.contents keeper.old keeper.new
        (watched_bytes W.contents writer.old) writer.new b (moves_text b) result) }
    // interrupted writes are tried again, 65,536 times in all
    ensures tries { TriesAnew writer.old writer.new result }
{
    if keeper.book().is_none() {
        return Err(Stop::Fault(Fault::Reopen));
    }
    let mut retries = Retries::new();
    match write_text(writer, &mut retries, b"cmd,dim,key,delta\n") {
        Ok(()) => write_lines(alloc, keeper, writer, retries),
        Err(fault) => Err(Stop::Fault(fault)),
    }
}
