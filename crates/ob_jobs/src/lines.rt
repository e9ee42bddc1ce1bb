//! A sink that writes a line for each change of an amount.
ghost use Rattle.std.specs.Prelude.{◌≡◌};
ghost use Rattle.ob_stream.specs.Retrying.{Tries};
ghost use Rattle.ob_stream.specs.Streams.{retries_left};
ghost use Rattle.ob_jobs.specs.Text.{moved_line};
ghost use Rattle.ob_jobs.specs.Exporting.{PutsLine};

use crate::line::line_of;
use ob_base::Fault;
use ob_post::Moved;
use ob_store::MoveSink;
use ob_stream::{Retries, Watched, write_text};
use std::alloc::Global;
use std::io::Write;

/// Writes the line of a change of an amount by a command.
fn put_line<W: Write>(
    alloc: Global,
    writer: &mut Watched<W>,
    retries: &mut Retries,
    cmd: u32,
    m: &Moved,
) -> Result<(), Fault>
    ensures puts { PutsLine W.contents writer.old writer.new (moved_line cmd m.now) result }
    ensures tries { Tries (retries_left retries.old) (retries_left retries.new) writer.old
        writer.new result }
{
    match line_of(alloc, cmd, m) {
        Ok(line) => write_text(writer, retries, &line),
        Err(_) => Err(Fault::OutOfMemory),
    }
}

/// Writes a line for each change of an amount.
#[derive(Drop)]
pub(crate) struct Lines<'w, W: Write> {
    alloc: Global,
    writer: &'w mut Watched<W>,
    retries: Retries,
}

impl<'w, W: Write> Lines<'w, W> {
    /// Creates a sink that writes to this writer.
    pub(crate) fn new(alloc: Global, writer: &'w mut Watched<W>, retries: Retries) -> Lines<'w, W>
        ensures same_reference { result.writer.ghost_name ≡ writer.entry.ghost_name }
        ensures writer { result.writer.now ≡ writer.old }
        ensures retries { result.retries ≡ retries }
    {
        Lines {
            alloc,
            writer,
            retries,
        }
    }
}

impl<'w, W: Write> MoveSink for Lines<'w, W> {
    ghost takes = { λ old cmd m result new. (new.writer.ghost_name ≡ old.writer.ghost_name)
        × PutsLine W.contents old.writer.now new.writer.now (moved_line cmd m) result
        × Tries (retries_left old.retries) (retries_left new.retries) old.writer.now new.writer.now
        result };

    fn take(&mut self, cmd: u32, m: &Moved) -> Result<(), Fault> {
        put_line(self.alloc, self.writer, &mut self.retries, cmd, m)
    }
}
