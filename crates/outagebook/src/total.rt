//! The job that prints the total of a text.
ghost use Rattle.outagebook.specs.Totals.{PrintsTotal};

use ob_cli::Unfinished;
use ob_stream::Watched;
use ob_total::run_total;
use std::alloc::Global;
use std::io::{Read, Write};

/// Prints the total of the text that a reader gives, as [`run_total`].
pub(crate) fn print_total<R: Read, W: Write>(
    alloc: Global,
    reader: &mut Watched<R>,
    writer: &mut Watched<W>,
) -> Result<(), Unfinished>
    ensures { PrintsTotal R.remaining W.contents reader.old reader.new writer.old writer.new result }
{
    match run_total(alloc, reader, writer) {
        Ok(_) => Ok(()),
        Err(stop) => Err(Unfinished::Stopped(stop.stop, stop.row)),
    }
}
