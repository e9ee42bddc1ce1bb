//! The job that writes the interruptions of a book's customers.
ghost use Rattle.std.specs.Prelude.{◌≡◌, ℕ, length};
ghost use Rattle.ob_stream.specs.Retrying.{Tries, TriesAnew};
ghost use Rattle.ob_stream.specs.Streams.{retries_left};
ghost use Rattle.ob_stream.specs.Watching.{watched_bytes};
ghost use Rattle.ob_rows.specs.Rows.{interruption_rows};
ghost use Rattle.ob_rows.specs.RowText.{row_lines};
ghost use Rattle.ob_jobs.specs.Books.{WritesRowsOfBook};
ghost use Rattle.ob_jobs.specs.Rows.{RowsOfBook, TellsRows, WritesRows, WritesRowsOf};
ghost use Rattle.ob_store.specs.Keepers.{book_of};

use crate::ending::end_of_job;
use crate::export::line_of;
use crate::opening::OpenOutput;
use crate::row_lines::{RowLines, room_for_lines};
use crate::tell::tell;
use ob_base::{Fault, Stop};
use ob_book::Book;
use ob_cli::Unfinished;
use ob_import::Progress;
use ob_rows::RowText;
use ob_store::{Alter, Keeper};
use ob_stream::{Retries, Watched, write_text};
use ob_sweep::Timeline;
use std::alloc::Global;
use std::io::Write;

/// Loads a book, then creates or replaces the output, and writes the interruptions of the book's
/// customers into it, as [`run_interruptions`].
pub fn interruptions_from_book<O: OpenOutput, S: Alter, T: Timeline, P: Progress, W: Write>(
    alloc: Global,
    keeper: &mut Keeper<S, T>,
    output: &mut O,
    progress: &mut P,
    writer: &mut Watched<W>,
) -> Result<(), Unfinished>
    ensures { WritesRowsOfBook O.opens O.Output.contents W.contents keeper.old keeper.new output.old
        output.new writer.old writer.new result }
{
    keeper.load_with_progress(progress)?;
    let Some(opened) = output.open() else {
        return Err(Unfinished::from(Stop::Fault(Fault::Output)));
    };
    let mut file = Watched::new(opened);
    end_of_job(run_interruptions(alloc, keeper, &mut file, writer))
}

/// Writes the interruptions of the customers of the keeper's book into a file: the header, and then
/// a line for each interruption of customers who have equal service. Then writes `rows`, their
/// number, and LF to `writer`. Interrupted writes into the file are repeated, 65,536 times in all.
///
/// # Errors
///
/// `Fault::Reopen` if the keeper has no book, and then nothing is written; `Fault::OutOfMemory`,
/// and `Fault::Output` if the file fails, and then a first part is in the file and nothing is
/// written to `writer`; `Fault::Output` also if `writer` fails.
pub fn run_interruptions<F: Write, S: Alter, T: Timeline, W: Write>(
    alloc: Global,
    keeper: &Keeper<S, T>,
    file: &mut Watched<F>,
    writer: &mut Watched<W>,
) -> Result<u64, Stop>
    ensures { TellsRows F.contents W.contents (book_of keeper.now) file.old file.new writer.old
        writer.new result }
{
    let rows = write_book(alloc, keeper, file)?;
    let line = line_of(alloc, rows)?;
    tell(writer, line.as_bytes())?;
    Ok(rows)
}

/// Writes the interruptions of the customers of the keeper's book, if it has one.
fn write_book<F: Write, S: Alter, T: Timeline>(
    alloc: Global,
    keeper: &Keeper<S, T>,
    file: &mut Watched<F>,
) -> Result<u64, Stop>
    ensures { RowsOfBook F.contents (book_of keeper.now) file.old file.new result }
{
    let Some(book) = keeper.book() else {
        return Err(Stop::Fault(Fault::Reopen));
    };
    match write_rows(alloc, book, file) {
        Ok(rows) => Ok(rows),
        Err(fault) => Err(Stop::Fault(fault)),
    }
}

/// Writes the header, and then a line for each interruption row of a book.
fn write_rows<F: Write, T: Timeline>(
    alloc: Global,
    book: &Book<T>,
    file: &mut Watched<F>,
) -> Result<u64, Fault>
    ensures rows { WritesRowsOf F.contents book.now.state file.old file.new result }
    // interrupted writes are tried again, 65,536 times in all
    ensures tries { TriesAnew file.old file.new result }
{
    let mut retries = Retries::new();
    write_text(file, &mut retries, HEADER)?;
    write_lines(alloc, book, file, retries)
}

/// The names of the columns.
const HEADER: &[u8] =
    b"section,feeder,customers,service_since,service_until,since,until,cause,entry,marked\n";

/// Writes a line for each interruption row of a book.
fn write_lines<F: Write, T: Timeline>(
    alloc: Global,
    book: &Book<T>,
    file: &mut Watched<F>,
    retries: Retries,
) -> Result<u64, Fault>
    ensures rows { WritesRows F.contents (watched_bytes F.contents file.old) file.new
        (row_lines book.now.state (interruption_rows book.now.state))
        (length (interruption_rows book.now.state)) result }
    ensures tries { (left : ℕ) × Tries (retries_left retries) left file.old file.new result }
{
    let mut gathered = room_for_lines(alloc)?;
    let mut text = RowText::new(alloc, book);
    let mut lines = RowLines::new(&mut text, file, retries, &mut gathered);
    lines.write_rows(book)
}
