//! The job that applies all commands of a CSV file to a book, or none.
ghost use Rattle.ob_jobs.specs.Books.{ImportsWholeIntoBook};

use crate::ending::end_of_import;
use crate::import::tell_report;
use crate::opening::OpenInput;
use ob_base::{Fault, Stop};
use ob_cli::Unfinished;
use ob_import::{Progress, import_whole};
use ob_store::{Alter, Keeper};
use ob_stream::Watched;
use ob_sweep::Timeline;
use std::alloc::Global;
use std::io::Write;

/// Loads a book, then opens the input, and applies the commands of its CSV text as a whole, as
/// [`ob_import::import_whole`]. Writes the line that `import_into_book` writes; if a row was
/// refused, both numbers are 0, nothing was added, and the job ends as `Unfinished::Stopped`.
///
/// # Errors
///
/// Those of `import_into_book`. After `Fault::Output` all commands are in the book.
pub fn import_whole_into_book<O: OpenInput, S: Alter, T: Timeline, P: Progress, W: Write>(
    alloc: Global,
    keeper: &mut Keeper<S, T>,
    input: &mut O,
    progress: &mut P,
    writer: &mut Watched<W>,
) -> Result<(), Unfinished>
    ensures { ImportsWholeIntoBook O.opens O.Input.remaining W.contents keeper.old keeper.new
        input.old input.new writer.old writer.new result }
{
    keeper.load_with_progress(progress)?;
    let Some(opened) = input.open() else {
        return Err(Unfinished::from(Stop::Fault(Fault::Input)));
    };
    let mut reader = Watched::new(opened);
    match import_whole(alloc, &mut reader, keeper, progress) {
        Ok(report) => end_of_import(tell_report(alloc, report, writer)),
        Err(failed) => Err(Unfinished::from(Stop::Fault(failed.fault))),
    }
}
