//! The import of a whole text: all of its rows in one transaction, or none.
ghost use Rattle.std.specs.Prelude.{◌≡◌, ◌≤◌, List, Some, option_map, IsSome, IfErr, IfOk};
ghost use Rattle.ob_csv.specs.Rows.{Fields, rows_of};
ghost use Rattle.ob_import.specs.Imports.{after_header};
ghost use Rattle.ob_import.specs.Whole.{GivesBody, IsEndOf, IsLine, RunsWhole, WholeOf};
ghost use Rattle.ob_store.specs.Keepers.{book_of};

use crate::acting::command_in;
use crate::gather::gather;
use crate::report::{ImportFault, ImportReport};
use crate::rows::take_row;
use crate::text::{fault_without_book, lines_of};
use ob_base::{Fault, Ref, Refusal, Stop};
use ob_book::Command;
use ob_csv::{MOST_BYTES, MOST_ROWS, Row, RowReader};
use ob_store::{Alter, Halted, Keeper, Lines, Progress, Work};
use ob_stream::{Retries, Watched};
use ob_sweep::Timeline;
use std::alloc::Global;
use std::io::Read;

/// Imports the commands of the CSV text from a reader as a whole, in one transaction: all of its
/// rows, or none. The text and its rows are those of [`crate::import`]. Reports each row to
/// `progress`.
///
/// If a row is refused, nothing is added, `added` and `again` are 0, and `stopped` is the row at
/// which [`crate::import`] stops. The keeper may then have no book until it loads it again.
///
/// # Errors
///
/// Those of [`crate::import`], with `added` and `again` 0. Nothing is added, unless the store failed
/// to confirm the commit: then it has all rows or none, which the next `load` shows.
pub fn import_whole<R: Read, S: Alter, T: Timeline, P: Progress>(
    alloc: Global,
    reader: &mut Watched<R>,
    keeper: &mut Keeper<S, T>,
    progress: &mut P,
) -> Result<ImportReport, ImportFault>
    ensures { WholeOf R.remaining keeper.old keeper.new reader.old reader.new result }
{
    if keeper.book().is_none() {
        return Err(fault_without_book());
    }
    let mut retries = Retries::new();
    let Ok(gathered) = gather(alloc, reader, &mut retries, MOST_BYTES) else {
        return Err(nothing_added(Fault::OutOfMemory));
    };
    if !gathered.whole {
        return Err(nothing_added(Fault::Input));
    }
    import_lines(alloc, gathered.bytes, keeper, progress)
}

/// Imports the rows of a text, its header included, in one transaction.
fn import_lines<S: Alter, T: Timeline, P: Progress>(
    alloc: Global,
    text: Vec<u8>,
    keeper: &mut Keeper<S, T>,
    progress: &mut P,
) -> Result<ImportReport, ImportFault>
    requires { IsSome (book_of keeper.old) }
    ensures { RunsWhole keeper.old keeper.new (rows_of text.items) result }
{
    // the first line is the header
    let total = lines_of(text.as_slice()).saturating_sub(1);
    let mut lines = match lines_after(alloc, text.as_slice()) {
        Ok(Some(lines)) => lines,
        Ok(None) => return Ok(stopped_at(0, Refusal::BadField(0))),
        Err(fault) => return Err(nothing_added(fault)),
    };
    progress.begin(Work::Rows, total);
    let run = keeper.act_all(&mut lines, progress);
    progress.end();
    end_of(run, lines.given)
}

/// Reads the header of a text; the rows after it are then lines. None if it has no header.
fn lines_after<R: Read + Drop>(alloc: Global, text: R) -> Result<Option<RowLines<R>>, Fault>
    ensures body { (all : List Fields) → option_map rows_of (R.remaining text) ≡ Some all
        → IfOk result (GivesBody R.remaining (after_header all)) }
    ensures faults { IfErr result (λ fault. fault ≡ Fault.OutOfMemory) }
{
    let mut rows = RowReader::new(alloc, text);
    let mut row = Row::new(alloc);
    let found = match take_row(&mut rows, &mut row, true) {
        Ok(found) => found,
        Err(fault) => return Err(fault),
    };
    if !found || !row.is_header() {
        return Ok(None);
    }
    Ok(Some(RowLines {
        rows,
        row,
        given: 0,
        ended: false,
    }))
}

/// The rows of a text after its header, each as a line of a list. Only one of them is held.
#[derive(Drop)]
struct RowLines<R> {
    rows: RowReader<R>,
    // The row that was read last.
    row: Row,
    // How many lines were given.
    given: u32,
    // Whether the last line said no command: none is given after it.
    ended: bool,
}

impl<R: Read> Lines for RowLines<R> {
    ghost use Rattle.ob_import.specs.Whole.{GivesLine};

    ghost gives = { GivesLine R.remaining };

    fn next(&mut self) -> Result<Option<Result<(Ref, Command), Refusal>>, Fault> {
        // the line past the most that a text may have says no command
        if self.ended || self.given > MOST_ROWS {
            return Ok(None);
        }
        match take_row(&mut self.rows, &mut self.row, true) {
            Ok(true) => {}
            Ok(false) => return Ok(None),
            Err(fault) => return Err(fault),
        }
        self.given += 1;
        let line = line_of(self.given, &self.row);
        self.ended = line.is_err();
        Ok(Some(line))
    }
}

/// What the row of this number says, counted from 1.
fn line_of(number: u32, row: &Row) -> Result<(Ref, Command), Refusal>
    ensures { IsLine number row.now result }
{
    if number > MOST_ROWS {
        Err(Refusal::Full(MOST_ROWS))
    } else {
        command_in(row)
    }
}

/// The result of an import from that of its list of so many lines.
fn end_of(run: Result<usize, Halted>, lines: u32) -> Result<ImportReport, ImportFault>
    requires few { lines ≤ 1_000_001 }
    requires added { IfOk run (λ added. added ≤ lines) }
    requires place { IfErr run (λ e. e.place ≤ lines) }
    ensures { IsEndOf run lines result }
{
    match run {
        Ok(added) => Ok(ImportReport {
            added: added as u32,
            again: lines - added as u32,
            stopped: None,
        }),
        Err(halted) => match halted.stop {
            Stop::Refused(refusal) => Ok(stopped_at(halted.place as u32 + 1, refusal)),
            Stop::Fault(fault) => Err(nothing_added(fault)),
        },
    }
}

/// The report of an import that added nothing, since this row was refused.
fn stopped_at(number: u32, refusal: Refusal) -> ImportReport
    ensures { result ≡ record { added = 0; again = 0; stopped = Some (number, refusal) } }
{
    ImportReport {
        added: 0,
        again: 0,
        stopped: Some((number, refusal)),
    }
}

/// The fault of an import that added nothing.
fn nothing_added(fault: Fault) -> ImportFault
    ensures { result ≡ record { fault = fault; added = 0; again = 0 } }
{
    ImportFault {
        fault,
        added: 0,
        again: 0,
    }
}
