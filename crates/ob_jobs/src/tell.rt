//! Writes the text of a job that was done.
ghost use Rattle.ob_jobs.specs.Telling.{Told};

use ob_base::Stop;
use ob_stream::{Retries, Watched, write_text};
use std::io::Write;

/// Writes the text of a job that was done: completely, or a part of it if the writer fails.
pub(crate) fn tell<W: Write>(writer: &mut Watched<W>, text: &[u8]) -> Result<(), Stop>
    ensures { Told W.contents writer.old writer.new text.now result }
{
    let mut retries = Retries::new();
    match write_text(writer, &mut retries, text) {
        Ok(()) => Ok(()),
        Err(fault) => Err(Stop::Fault(fault)),
    }
}
