//! A sink that writes a line for each interruption row.
ghost use Rattle.std.specs.Prelude.{◌≡◌, [], IfOk, IfErr};
ghost use Rattle.ob_stream.specs.Retrying.{Tries};
ghost use Rattle.ob_stream.specs.Streams.{retries_left};
ghost use Rattle.ob_rows.specs.RowText.{row_line};
ghost use Rattle.ob_jobs.specs.Gathering.{Empties, GathersLine};

use ob_base::Fault;
use ob_book::Book;
use ob_rows::{InterruptionRow, RowSink, RowText, each_row};
use ob_stream::{Retries, Watched, write_text};
use ob_sweep::Timeline;
use std::alloc::Global;
use std::io::Write;

/// How many bytes are gathered at most, but for a line.
const MOST: usize = 65_536;

/// How many bytes there is room for, those of any line too.
const ROOM: usize = MOST + 256;

/// A text with room for what is gathered.
pub(crate) fn room_for_lines(alloc: Global) -> Result<Vec<u8>, Fault>
    ensures empty { IfOk result (λ text. text.items ≡ []) }
    ensures memory { IfErr result (λ fault. fault ≡ Fault.OutOfMemory) }
{
    match Vec::with_capacity(alloc, ROOM) {
        Ok(text) => Ok(text),
        Err(_) => Err(Fault::OutOfMemory),
    }
}

/// Writes what was gathered.
fn write_gathered<W: Write>(
    writer: &mut Watched<W>,
    retries: &mut Retries,
    gathered: &mut Vec<u8>,
) -> Result<(), Fault>
    ensures empties { Empties W.contents writer.old gathered.old.items writer.new
        gathered.new.items result }
    ensures tries { Tries (retries_left retries.old) (retries_left retries.new) writer.old
        writer.new result }
{
    write_text(writer, retries, gathered)?;
    gathered.clear();
    Ok(())
}

/// Gathers the line of an interruption row, and writes what is gathered if it is much.
fn gather_row<T: Timeline, W: Write>(
    text: &mut RowText<T>,
    writer: &mut Watched<W>,
    retries: &mut Retries,
    gathered: &mut Vec<u8>,
    row: &InterruptionRow,
) -> Result<(), Fault>
    ensures text { text.new ≡ text.old }
    ensures gathers { GathersLine W.contents writer.old gathered.old.items writer.new
        gathered.new.items (row_line text.old row.now) result }
    ensures tries { Tries (retries_left retries.old) (retries_left retries.new) writer.old
        writer.new result }
{
    if text.push_line(gathered, row).is_err() {
        return Err(Fault::OutOfMemory);
    }
    if gathered.len() < MOST {
        return Ok(());
    }
    write_gathered(writer, retries, gathered)
}

/// Writes a line for each interruption row of a book. Lines are gathered, and written many at once.
#[derive(Drop)]
pub(crate) struct RowLines<'b, 'w, T: Timeline, W: Write> {
    text: &'w mut RowText<'b, T>,
    writer: &'w mut Watched<W>,
    retries: Retries,
    gathered: &'w mut Vec<u8>,
}

impl<'b, 'w, T: Timeline, W: Write> RowLines<'b, 'w, T, W> {
    ghost use Rattle.std.specs.Prelude.{◌≡◌, [], length};
    ghost use Rattle.ob_stream.specs.Retrying.{Tries};
    ghost use Rattle.ob_stream.specs.Streams.{retries_left};
    ghost use Rattle.ob_stream.specs.Watching.{watched_bytes};
    ghost use Rattle.ob_rows.specs.Rows.{interruption_rows};
    ghost use Rattle.ob_rows.specs.RowText.{row_lines};
    ghost use Rattle.ob_jobs.specs.Rows.{WritesRows};

    /// Creates a sink that makes its lines by this text, gathers them in that one, and writes to this
    /// writer.
    pub(crate) fn new(
        text: &'w mut RowText<'b, T>,
        writer: &'w mut Watched<W>,
        retries: Retries,
        gathered: &'w mut Vec<u8>,
    ) -> RowLines<'b, 'w, T, W>
        ensures same_reference { result.writer.ghost_name ≡ writer.entry.ghost_name }
        ensures writer { result.writer.now ≡ writer.old }
        ensures retries { result.retries ≡ retries }
        ensures book { result.text.now ≡ text.old }
        ensures gathered { result.gathered.now.items ≡ gathered.old.items }
    {
        RowLines {
            text,
            writer,
            retries,
            gathered,
        }
    }

    /// Writes the lines of the interruption rows of its book, and returns how many there are.
    pub(crate) fn write_rows(&mut self, book: &Book<T>) -> Result<u64, Fault>
        requires book { self.old.text.now ≡ book.now.state }
        requires nothing { self.old.gathered.now.items ≡ [] }
        ensures same_reference { self.new.writer.ghost_name ≡ self.old.writer.ghost_name }
        ensures rows { WritesRows W.contents (watched_bytes W.contents self.old.writer.now)
            self.new.writer.now (row_lines book.now.state (interruption_rows book.now.state))
            (length (interruption_rows book.now.state)) result }
        ensures tries { Tries (retries_left self.old.retries) (retries_left self.new.retries)
            self.old.writer.now self.new.writer.now result }
    {
        let rows = each_row(book, self)?;
        write_gathered(self.writer, &mut self.retries, self.gathered)?;
        Ok(rows)
    }
}

impl<'b, 'w, T: Timeline, W: Write> RowSink for RowLines<'b, 'w, T, W> {
    ghost takes = { λ old row result new. (new.writer.ghost_name ≡ old.writer.ghost_name)
        × (new.text.now ≡ old.text.now)
        × GathersLine W.contents old.writer.now old.gathered.now.items new.writer.now
        new.gathered.now.items (row_line old.text.now row) result
        × Tries (retries_left old.retries) (retries_left new.retries) old.writer.now new.writer.now
        result };

    fn take(&mut self, row: &InterruptionRow) -> Result<(), Fault> {
        gather_row(
            self.text,
            self.writer,
            &mut self.retries,
            self.gathered,
            row,
        )
    }
}
