//! The job that writes the changes of amounts that a book's commands made.
ghost use Rattle.std.specs.Prelude.{◌≡◌, IfOk, string_bytes};
ghost use Rattle.ob_jobs.specs.Books.{ExportsFromBook};
ghost use Rattle.ob_jobs.specs.Importing.{ExportOf, TellsExport, export_line};

use crate::ending::end_of_job;
use crate::export_moves;
use crate::opening::OpenOutput;
use crate::tell::tell;
use ob_base::{Fault, Stop};
use ob_cli::Unfinished;
use ob_import::Progress;
use ob_store::{Alter, Keeper};
use ob_stream::Watched;
use ob_sweep::Timeline;
use std::alloc::{AllocError, Global};
use std::io::Write;

/// Loads a book, then creates or replaces the output, and writes the changes of amounts into it, as
/// [`run_export`].
pub fn export_from_book<O: OpenOutput, S: Alter, T: Timeline, P: Progress, W: Write>(
    alloc: Global,
    keeper: &mut Keeper<S, T>,
    output: &mut O,
    progress: &mut P,
    writer: &mut Watched<W>,
) -> Result<(), Unfinished>
    ensures { ExportsFromBook O.opens O.Output.contents W.contents keeper.old keeper.new output.old
        output.new writer.old writer.new result }
{
    keeper.load_with_progress(progress)?;
    let Some(opened) = output.open() else {
        return Err(Unfinished::from(Stop::Fault(Fault::Output)));
    };
    let mut file = Watched::new(opened);
    end_of_job(run_export(alloc, keeper, &mut file, writer))
}

/// Writes the changes of amounts by the accepted commands into a file, as
/// [`ob_jobs::export_moves`]. Then writes `rows`, their number, and LF to `writer`.
///
/// # Errors
///
/// Those of [`ob_jobs::export_moves`], and then nothing is written to `writer`; `Fault::Output`
/// also if `writer` fails.
pub fn run_export<F: Write, S: Alter, T: Timeline, W: Write>(
    alloc: Global,
    keeper: &mut Keeper<S, T>,
    file: &mut Watched<F>,
    writer: &mut Watched<W>,
) -> Result<u64, Stop>
    ensures { TellsExport F.contents W.contents keeper.old keeper.new file.old file.new writer.old
        writer.new result }
{
    let rows = export_rows(alloc, keeper, file)?;
    let line = line_of(alloc, rows)?;
    tell(writer, line.as_bytes())?;
    Ok(rows)
}

/// The export.
fn export_rows<F: Write, S: Alter, T: Timeline>(
    alloc: Global,
    keeper: &mut Keeper<S, T>,
    file: &mut Watched<F>,
) -> Result<u64, Stop>
    ensures { ExportOf F.contents keeper.old keeper.new file.old file.new result }
{
    export_moves(alloc, keeper, file)
}

/// The line with the number of rows that were written.
pub(crate) fn line_of(alloc: Global, rows: u64) -> Result<String, AllocError>
    ensures { IfOk result (λ line. string_bytes line ≡ export_line rows) }
{
    format!(in alloc; "rows {rows}\n")
}
