//! The job that applies the commands of a CSV file to a book.
ghost use Rattle.std.specs.Prelude.{◌≡◌, Ok, IfOk, string_bytes};
ghost use Rattle.ob_jobs.specs.After.{TellsAfter};
ghost use Rattle.ob_jobs.specs.Books.{ImportsIntoBook};
ghost use Rattle.ob_jobs.specs.Importing.{import_line};

use crate::ending::end_of_import;
use crate::opening::OpenInput;
use crate::tell::tell;
use ob_base::{Fault, Stop};
use ob_cli::Unfinished;
use ob_import::{ImportReport, Progress, import_with_progress};
use ob_store::{Alter, Keeper};
use ob_stream::Watched;
use ob_sweep::Timeline;
use std::alloc::{AllocError, Global};
use std::io::Write;

/// Loads a book, then opens the input, and applies the commands of its CSV text, as
/// [`ob_import::import_with_progress`]. Writes `added`, the number of rows that added a command,
/// `again`, the number of rows whose command the book had already, and LF. Writes this line also if
/// a row was refused; the job then ends as `Unfinished::Stopped`.
///
/// # Errors
///
/// Those of loading, `Fault::Input` if the input can't be opened, and the fault that ended the
/// import; then nothing is written. `Fault::Output` if the writer fails; the import is done then.
pub fn import_into_book<O: OpenInput, S: Alter, T: Timeline, P: Progress, W: Write>(
    alloc: Global,
    keeper: &mut Keeper<S, T>,
    input: &mut O,
    progress: &mut P,
    writer: &mut Watched<W>,
) -> Result<(), Unfinished>
    ensures { ImportsIntoBook O.opens O.Input.remaining W.contents keeper.old keeper.new input.old
        input.new writer.old writer.new result }
{
    keeper.load_with_progress(progress)?;
    let Some(opened) = input.open() else {
        return Err(Unfinished::from(Stop::Fault(Fault::Input)));
    };
    let mut reader = Watched::new(opened);
    match import_with_progress(alloc, &mut reader, keeper, progress) {
        Ok(report) => end_of_import(tell_report(alloc, report, writer)),
        // the counts up to a fault aren't printed
        Err(failed) => Err(Unfinished::from(Stop::Fault(failed.fault))),
    }
}

/// Writes the number of rows applied, and returns the report unchanged.
pub(crate) fn tell_report<W: Write>(
    alloc: Global,
    report: ImportReport,
    writer: &mut Watched<W>,
) -> Result<ImportReport, Stop>
    ensures { TellsAfter (λ done. done ≡ Ok report) import_line W.contents writer.old writer.new
        result }
{
    let line = line_of(alloc, &report)?;
    tell(writer, line.as_bytes())?;
    Ok(report)
}

/// The line with the number of rows applied.
fn line_of(alloc: Global, report: &ImportReport) -> Result<String, AllocError>
    ensures { IfOk result (λ line. string_bytes line ≡ import_line report.now) }
{
    let ImportReport { added, again, .. } = *report;
    format!(in alloc; "added {added} again {again}\n")
}
