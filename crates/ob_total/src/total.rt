//! Computes the total of a text, from the bytes that are read to the line that is written.
ghost use Rattle.std.specs.Prelude.{◌≡◌, ◌≢◌, ◌⊎◌, string_bytes, None, Some, Ok, true, IfOk, IfErr, OnOk};
ghost use Rattle.std.specs.Io.KnownBytes.{Appends, Keeps};
ghost use Rattle.ob_base.specs.Stop.{out_of_memory};
ghost use Rattle.ob_stream.specs.Retrying.{BothTryAnew};
ghost use Rattle.ob_stream.specs.Streams.{Passes};
ghost use Rattle.ob_stream.specs.Watching.{HasJustFailed, watched_bytes};
ghost use Rattle.ob_csv.specs.Rows.{TakesRow};
ghost use Rattle.ob_csv.specs.RowReading.{rows_left};
ghost use Rattle.ob_total.specs.Commands.{command_of, span_of};
ghost use Rattle.ob_total.specs.Outcomes.{Answers, AnswersKnown, BeginsLine, HasCause, IsWithin, SpeaksOfText};
ghost use Rattle.ob_total.specs.Steps.{StopsAtRow};
ghost use Rattle.ob_total.specs.Totals.{begun, stepped, total_from, total_of_body, total_of, total_line};
ghost use Rattle.ob_total.specs.Worlds.{customer_seconds_of};

use crate::command::{command_in, span_in};
use crate::world::World;
use ob_base::{Fault, Refusal, Stop};
use ob_csv::{MOST_BYTES, MOST_ROWS, Row, RowReader};
use ob_stream::{Retries, Watched, read_text, write_text};
use std::alloc::{AllocError, Global};
use std::io::{Read, Write};

/// Why a run ended early, and at which row: 0 is the header, and the rows after it are numbered
/// from 1. A fault has no row.
#[derive(Clone, Copy, Debug, PartialEq, Eq)]
pub struct TotalStop {
    pub stop: Stop,
    pub row: Option<u32>,
}

/// Reads a text of a span, a network, customers and a switching log, and writes `W n` and LF. n is
/// the number of customer-seconds without supply in the span; it is also returned.
///
/// The text is CSV (RFC 4180) of at most `ob_csv::MOST_BYTES` bytes and `ob_csv::MOST_ROWS` rows
/// after the header. Interrupted reads and writes are repeated, 65,536 times in all.
///
/// # Errors
///
/// The first refusal in the text with its row; `Fault::Input` if the reader fails or the text is
/// too long, `Fault::Output` if the writer fails, `Fault::OutOfMemory`. Nothing is written, except
/// if the writer fails: then at most the beginning of the line.
pub fn run_total<R: Read, W: Write>(
    alloc: Global,
    reader: &mut Watched<R>,
    writer: &mut Watched<W>,
) -> Result<u64, TotalStop>
    ensures said { AnswersKnown total_of (watched_bytes R.remaining reader.old) result }
    ensures written { IfOk result (λ n. Appends (watched_bytes W.contents writer.old)
        (watched_bytes W.contents writer.new) (total_line n)) }
    ensures nothing { IfErr result (λ e. e.stop ≢ Stop.Fault Fault.Output
        → Keeps (watched_bytes W.contents writer.old) (watched_bytes W.contents writer.new)) }
    ensures front { IfErr result (λ e. e.stop ≡ Stop.Fault Fault.Output
        → BeginsLine (watched_bytes R.remaining reader.old) (watched_bytes W.contents writer.old)
        (watched_bytes W.contents writer.new)) }
    ensures length { SpeaksOfText result → IsWithin (watched_bytes R.remaining reader.old) 268435456 }
    ensures cause { IfErr result (λ e. HasCause e.stop (HasJustFailed reader.new
        ⊎ Passes (watched_bytes R.remaining reader.old) 268435456) (HasJustFailed writer.new)) }
    // interrupted reads and writes are tried again, 65,536 times in all
    ensures tries { BothTryAnew reader.old reader.new writer.old writer.new result }
{
    let mut retries = Retries::new();
    let text = match read_text(alloc, reader, &mut retries, MOST_BYTES) {
        Ok(text) => text,
        Err(e) => return Err(fault(e)),
    };
    let total = total_of_text(alloc, text.as_slice())?;
    let line = match line_of(alloc, total) {
        Ok(line) => line,
        Err(_) => return Err(fault(Fault::OutOfMemory)),
    };
    match write_text(writer, &mut retries, line.as_bytes()) {
        Ok(()) => Ok(total),
        Err(e) => Err(fault(e)),
    }
}

/// The total of a text.
fn total_of_text(alloc: Global, text: &[u8]) -> Result<u64, TotalStop>
    ensures said { Answers result (total_of text.now) }
    ensures cause { IfErr result (λ e. HasCause e.stop ⊥ ⊥) }
{
    let mut rows = RowReader::new(alloc, text);
    let mut row = Row::new(alloc);
    let found = take_row(&mut rows, &mut row)?;
    if !found || !row.is_header() {
        return Err(refused_stop(Refusal::BadField(0), 0));
    }
    total_of_rows(alloc, &mut rows, &mut row)
}

/// The total of the rows after the header.
fn total_of_rows<R: Read>(
    alloc: Global,
    rows: &mut RowReader<R>,
    row: &mut Row,
) -> Result<u64, TotalStop>
    ensures said { AnswersKnown total_of_body (rows_left R.remaining rows.old) result }
    ensures cause { IfErr result (λ e. HasCause e.stop ⊥ ⊥) }
{
    let found = take_row(rows, row)?;
    if !found {
        return Err(refused_stop(Refusal::BadField(0), 0));
    }
    let mut world = begin(alloc, row)?;
    total_after(rows, row, &mut world)
}

/// The total of the rows after the span. `world` is that of the span.
fn total_after<R: Read>(
    rows: &mut RowReader<R>,
    row: &mut Row,
    world: &mut World,
) -> Result<u64, TotalStop>
    ensures said { AnswersKnown (total_from 2 world.old) (rows_left R.remaining rows.old) result }
    ensures cause { IfErr result (λ e. HasCause e.stop ⊥ ⊥) }
{
    for number in 2..MOST_ROWS + 1 {
        let found = take_row(rows, row)?;
        if !found {
            return total_of_world(world);
        }
        act_row(world, row, number)?;
    }
    let found = take_row(rows, row)?;
    if found {
        return Err(refused_stop(Refusal::Full(MOST_ROWS), MOST_ROWS + 1));
    }
    total_of_world(world)
}

/// Reads the next row into `row`, and returns whether there was one.
fn take_row<R: Read>(rows: &mut RowReader<R>, row: &mut Row) -> Result<bool, TotalStop>
    ensures takes { IfOk result (λ found. TakesRow (rows_left R.remaining rows.old)
        (rows_left R.remaining rows.new) found row.new) }
    ensures stop { IfErr result (λ e. (e.stop ≡ out_of_memory) × (e.row ≡ None)) }
{
    match rows.next_row(row) {
        Ok(found) => Ok(found),
        Err(stop) => Err(TotalStop { stop, row: None }),
    }
}

/// Creates the world of the span in the first row.
fn begin(alloc: Global, row: &Row) -> Result<World, TotalStop>
    ensures ok { IfOk result (λ world. begun (span_of row.now) ≡ Ok world) }
    ensures stop { IfErr result (λ e. StopsAtRow e.stop e.row 1 (begun (span_of row.now))) }
{
    let span = match span_in(row) {
        Ok(span) => span,
        Err(refusal) => return Err(refused_stop(refusal, 1)),
    };
    match World::new(alloc, span) {
        Ok(world) => Ok(world),
        Err(stop) => Err(TotalStop { stop, row: None }),
    }
}

/// Applies the command in a row to the world.
fn act_row(world: &mut World, row: &Row, number: u32) -> Result<(), TotalStop>
    ensures ok { OnOk result (stepped world.old (command_of row.now) ≡ Ok world.new) }
    ensures stop { IfErr result (λ e. StopsAtRow e.stop e.row number
        (stepped world.old (command_of row.now))) }
{
    let command = match command_in(row) {
        Ok(command) => command,
        Err(refusal) => return Err(refused_stop(refusal, number)),
    };
    match world.act(&command) {
        Ok(()) => Ok(()),
        Err(Stop::Refused(refusal)) => Err(refused_stop(refusal, number)),
        Err(Stop::Fault(e)) => Err(fault(e)),
    }
}

/// The customer-seconds without supply of a world.
fn total_of_world(world: &mut World) -> Result<u64, TotalStop>
    ensures total { IfOk result (λ n. n ≡ customer_seconds_of world.old) }
    ensures stop { IfErr result (λ e. (e.stop ≡ out_of_memory) × (e.row ≡ None)) }
{
    match world.count() {
        Ok(total) => Ok(total),
        Err(stop) => Err(TotalStop { stop, row: None }),
    }
}

/// The line with a total.
fn line_of(alloc: Global, total: u64) -> Result<String, AllocError>
    ensures { IfOk result (λ line. string_bytes line ≡ total_line total) }
{
    format!(in alloc; "W {total}\n")
}

fn fault(fault: Fault) -> TotalStop
    ensures stop { result.stop ≡ Stop.Fault fault }
    ensures row { result.row ≡ None }
{
    TotalStop {
        stop: Stop::Fault(fault),
        row: None,
    }
}

fn refused_stop(refusal: Refusal, row: u32) -> TotalStop
    ensures stop { result.stop ≡ Stop.Refused refusal }
    ensures row { result.row ≡ Some row }
{
    TotalStop {
        stop: Stop::Refused(refusal),
        row: Some(row),
    }
}
