//! Applies the rows of a text in order, up to the first refusal.
ghost use Rattle.std.specs.Prelude.{◌≡◌, ◌≢◌, true, false, [], Some, Ok, IsSome, IfSome, IfOk, IfErr};
ghost use Rattle.ob_csv.specs.Rows.{TakesRow};
ghost use Rattle.ob_csv.specs.RowReading.{rows_left};
ghost use Rattle.ob_import.specs.Imports.{after_header};
ghost use Rattle.ob_store.specs.Calls.{TellsFaults};
ghost use Rattle.ob_store.specs.Keepers.{book_of};
ghost use Rattle.ob_import.specs.Reports.{HasCause, IsStoreFault, Runs};

use crate::acting::act_row;
use crate::report::{ImportFault, ImportReport};
use ob_base::{Fault, Refusal, Stop};
use ob_csv::{MOST_ROWS, Row, RowReader};
use ob_store::{Alter, Keeper, Progress};
use ob_sweep::Timeline;
use std::alloc::Global;
use std::io::Read;

/// Imports the rows of a text, its header included. If they aren't the whole text, ends with
/// `Fault::Input` after the last of them.
pub(crate) fn import_rows<R: Read, S: Alter, T: Timeline, P: Progress>(
    alloc: Global,
    rows: &mut RowReader<R>,
    whole: bool,
    keeper: &mut Keeper<S, T>,
    progress: &mut P,
) -> Result<ImportReport, ImportFault>
    requires { IsSome (book_of keeper.old) }
    ensures runs { Runs after_header keeper.old keeper.new
        (rows_left R.remaining rows.old) whole result }
    ensures some { whole ≡ false → IfOk result (λ _. rows_left R.remaining rows.old ≢ Some []) }
    ensures tells { TellsFaults keeper.old keeper.new (IsStoreFault result) }
{
    let mut tally = Tally { added: 0, again: 0 };
    let mut row = Row::new(alloc);
    let found = match take_row(rows, &mut row, whole) {
        Ok(found) => found,
        Err(fault) => return Err(fault_after(tally, fault)),
    };
    if !found || !row.is_header() {
        return Ok(report(tally, Some((0, Refusal::BadField(0)))));
    }
    for number in 1..MOST_ROWS + 1 {
        match take_row(rows, &mut row, whole) {
            Ok(true) => {}
            Ok(false) => return Ok(report(tally, None)),
            Err(fault) => return Err(fault_after(tally, fault)),
        }
        match act_row(keeper, &row) {
            Ok(is_new) => {
                tally.count(is_new);
                progress.step(number);
            }
            Err(Stop::Refused(refusal)) => return Ok(report(tally, Some((number, refusal)))),
            Err(Stop::Fault(fault)) => return Err(fault_after(tally, fault)),
        }
    }
    match take_row(rows, &mut row, whole) {
        Ok(true) => Ok(report(tally, Some((MOST_ROWS + 1, Refusal::Full(MOST_ROWS))))),
        Ok(false) => Ok(report(tally, None)),
        Err(fault) => Err(fault_after(tally, fault)),
    }
}

/// Reads the next row into `row`, and returns whether there was one. `Fault::Input` after the last
/// row if the text isn't whole.
pub(crate) fn take_row<R: Read>(
    rows: &mut RowReader<R>,
    row: &mut Row,
    whole: bool,
) -> Result<bool, Fault>
    ensures takes { IfOk result (λ found. TakesRow (rows_left R.remaining rows.old)
        (rows_left R.remaining rows.new) found row.new) }
    ensures ended { result ≡ Ok false → whole ≡ true }
    ensures fault { IfErr result (λ f. HasCause f (whole ≡ false)) }
    ensures store { IfErr result (λ f. f ≢ Fault.Store) }
    ensures all { IfErr result (λ f. f ≡ Fault.Input
        → IfSome (rows_left R.remaining rows.old) (λ rows. rows ≡ [])) }
{
    match rows.next_row(row) {
        Ok(found) => {
            if found || whole {
                Ok(found)
            } else {
                Err(Fault::Input)
            }
        }
        Err(_) => Err(Fault::OutOfMemory),
    }
}

/// The number of rows applied so far.
#[derive(Clone, Copy)]
struct Tally {
    // Rows that added a command.
    added: u32,
    // Rows whose command the book had already.
    again: u32,
}

impl Tally {
    ghost use Rattle.std.specs.Prelude.{◌≡◌, ◌+◌, ◌<◌, if◌then◌else◌};

    /// Counts one row, by whether its command was new to the book.
    fn count(&mut self, is_new: bool)
        requires { self.old.added + self.old.again < 1_000_000 }
        ensures added { self.new.added ≡ self.old.added + (if is_new then 1 else 0) }
        ensures again { self.new.again ≡ self.old.again + (if is_new then 0 else 1) }
    {
        if is_new {
            self.added += 1;
        } else {
            self.again += 1;
        }
    }
}

fn report(tally: Tally, stopped: Option<(u32, Refusal)>) -> ImportReport
    ensures added { result.added ≡ tally.added }
    ensures again { result.again ≡ tally.again }
    ensures stopped { result.stopped ≡ stopped }
{
    ImportReport {
        added: tally.added,
        again: tally.again,
        stopped,
    }
}

fn fault_after(tally: Tally, fault: Fault) -> ImportFault
    ensures fault { result ≡ record { fault = fault; added = tally.added; again = tally.again } }
{
    ImportFault {
        fault,
        added: tally.added,
        again: tally.again,
    }
}
