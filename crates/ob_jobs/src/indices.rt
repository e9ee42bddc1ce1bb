//! The job that prints the indices of a book by feeder, month, day, cause or section.
ghost use Rattle.std.specs.Prelude.{◌≡◌};
ghost use Rattle.ob_jobs.specs.Books.{PrintsIndices};
ghost use Rattle.ob_jobs.specs.Tabling.{HasTable, indices_text};
ghost use Rattle.ob_jobs.specs.Telling.{Tells};
ghost use Rattle.ob_store.specs.Keepers.{book_of};

use crate::ending::end_of_job;
use crate::tell::tell;
use ob_base::{Fault, Second, Stop};
use ob_cli::Unfinished;
use ob_import::Progress;
use ob_selections::By;
use ob_store::{Alter, Keeper};
use ob_stream::Watched;
use ob_sweep::Timeline;
use std::alloc::Global;
use std::io::Write;

/// Loads a book and prints its indices, as [`run_indices`].
pub fn print_indices<S: Alter, T: Timeline, P: Progress, W: Write>(
    alloc: Global,
    keeper: &mut Keeper<S, T>,
    by: By,
    longest: Second,
    progress: &mut P,
    writer: &mut Watched<W>,
) -> Result<(), Unfinished>
    ensures { PrintsIndices W.contents by longest keeper.old keeper.new writer.old writer.new result }
{
    keeper.load_with_progress(progress)?;
    end_of_job(run_indices(alloc, keeper, by, longest, writer))
}

/// Writes the indices of the keeper's book as CSV, where an interruption of at most `longest`
/// seconds is momentary.
///
/// # Errors
///
/// `Fault::Reopen` if the keeper has no book, `Fault::OutOfMemory`, `Fault::Output` if the writer
/// fails.
pub fn run_indices<S: Alter, T: Timeline, W: Write>(
    alloc: Global,
    keeper: &Keeper<S, T>,
    by: By,
    longest: Second,
    writer: &mut Watched<W>,
) -> Result<(), Stop>
    ensures { Tells (HasTable (book_of keeper.now)) (λ _. indices_text by longest
        (book_of keeper.now)) W.contents writer.old writer.new result }
{
    let Some(book) = keeper.book() else {
        return Err(Stop::Fault(Fault::Reopen));
    };
    match ob_selections::indices_text(alloc, book, by, longest) {
        Ok(text) => tell(writer, text.as_slice()),
        Err(stop) => Err(stop),
    }
}
