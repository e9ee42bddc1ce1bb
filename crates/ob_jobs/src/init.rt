//! The job that creates a book.
ghost use Rattle.std.specs.Prelude.{◌≡◌};
ghost use Rattle.ob_jobs.specs.Books.{MakesBook};
ghost use Rattle.ob_jobs.specs.Lines.{created_line};
ghost use Rattle.ob_jobs.specs.Making.{MakingOf};
ghost use Rattle.ob_jobs.specs.Telling.{Tells};

use crate::ending::end_of_job;
use crate::tell::tell;
use ob_base::Stop;
use ob_cli::Unfinished;
use ob_store::{Alter, Keeper};
use ob_stream::Watched;
use ob_sweep::Timeline;
use std::io::Write;

/// Creates the book of a period, as [`run_init`].
pub fn make_book<S: Alter, T: Timeline, W: Write>(
    keeper: &mut Keeper<S, T>,
    first: &[u8],
    days: u16,
    zone: &[u8],
    writer: &mut Watched<W>,
) -> Result<(), Unfinished>
    ensures { MakesBook W.contents keeper.old keeper.new first.now days zone.now writer.old
        writer.new result }
{
    end_of_job(run_init(keeper, first, days, zone, writer))
}

/// Creates the book of a period, as [`Keeper::create`], and writes `created` and LF.
///
/// # Errors
///
/// Those of [`Keeper::create`], and then nothing is written; `Fault::Output` if the writer fails,
/// and then the book exists.
pub fn run_init<S: Alter, T: Timeline, W: Write>(
    keeper: &mut Keeper<S, T>,
    first: &[u8],
    days: u16,
    zone: &[u8],
    writer: &mut Watched<W>,
) -> Result<(), Stop>
    ensures { Tells (MakingOf keeper.old keeper.new first.now days zone.now)
        (λ _. created_line) W.contents writer.old writer.new result }
{
    make_tables(keeper, first, days, zone)?;
    tell(writer, b"created\n".as_slice())
}

/// Creates the tables.
fn make_tables<S: Alter, T: Timeline>(
    keeper: &mut Keeper<S, T>,
    first: &[u8],
    days: u16,
    zone: &[u8],
) -> Result<(), Stop>
    ensures { MakingOf keeper.old keeper.new first.now days zone.now result }
{
    keeper.create(first, days, zone)
}
