//! The job that prints the annual table.
ghost use Rattle.std.specs.Prelude.{◌≡◌};
ghost use Rattle.ob_jobs.specs.Books.{PrintsBook};
ghost use Rattle.ob_jobs.specs.Tabling.{HasTable, table_text};
ghost use Rattle.ob_jobs.specs.Telling.{Tells};
ghost use Rattle.ob_store.specs.Keepers.{book_of};

use crate::ending::end_of_job;
use crate::tell::tell;
use ob_base::{Fault, Stop};
use ob_cli::Unfinished;
use ob_import::Progress;
use ob_store::{Alter, Keeper};
use ob_stream::Watched;
use ob_sweep::Timeline;
use std::io::Write;

/// Loads a book and prints its annual table, as [`run_table`].
pub fn print_book<S: Alter, T: Timeline, P: Progress, W: Write>(
    keeper: &mut Keeper<S, T>,
    progress: &mut P,
    writer: &mut Watched<W>,
) -> Result<(), Unfinished>
    ensures { PrintsBook W.contents keeper.old keeper.new writer.old writer.new result }
{
    keeper.load_with_progress(progress)?;
    end_of_job(run_table(keeper, writer))
}

/// Writes the annual table of the keeper's book.
///
/// # Errors
///
/// `Fault::Reopen` if the keeper has no book, `Fault::OutOfMemory`, `Fault::Output` if the writer
/// fails.
pub fn run_table<S: Alter, T: Timeline, W: Write>(
    keeper: &Keeper<S, T>,
    writer: &mut Watched<W>,
) -> Result<(), Stop>
    ensures { Tells (HasTable (book_of keeper.now)) (λ _. table_text (book_of keeper.now))
        W.contents writer.old writer.new result }
{
    let Some(book) = keeper.book() else {
        return Err(Stop::Fault(Fault::Reopen));
    };
    match book.annual_text() {
        Ok(text) => tell(writer, text.as_slice()),
        Err(stop) => Err(stop),
    }
}
