//! The job that serves a book.
ghost use Rattle.ob_jobs.specs.Books.{ServesBook};

use crate::ending::end_of_job;
use crate::opening::ServeBook;
use ob_cli::Unfinished;
use ob_import::Progress;
use ob_store::{Alter, Keeper};
use ob_sweep::Timeline;

/// Loads a book, then takes the port, and serves the book there.
pub fn serve_book<V: ServeBook, S: Alter, T: Timeline, P: Progress>(
    keeper: &mut Keeper<S, T>,
    server: &mut V,
    progress: &mut P,
) -> Result<(), Unfinished>
    ensures { ServesBook V.takes V.serves keeper.old keeper.new server.old server.new result }
{
    keeper.load_with_progress(progress)?;
    let port = server.take()?;
    end_of_job(server.serve(port, keeper))
}
