//! A reader of the rows of a CSV text.
ghost use Rattle.std.specs.Prelude.{◌≡◌, true, false, Ok, IfOk, OnOk, IfErr, option_map};
ghost use Rattle.ob_base.specs.Stop.{out_of_memory};
ghost use Rattle.ob_csv.specs.CsvSetup.{ReadsUnlessFailed};
ghost use Rattle.ob_csv.specs.Rows.{rows_of, TakesRow};

use crate::Row;
use csv::{Reader, ReaderBuilder};
use ob_base::{Fault, Stop};
use std::alloc::Global;
use std::io::Read;

/// A reader of the rows of a CSV text (RFC 4180), including its header.
///
/// It reads more than the standard allows. A row ends at LF, CRLF or a lone CR; the last row may
/// also end with the text, even within quotes. Rows may differ in their number of fields. Empty
/// lines are skipped, and so is a UTF-8 byte order mark at the very start. Nothing is trimmed, and
/// the bytes may be any.
#[derive(Drop)]
pub struct RowReader<R> {
    records: Reader<R>,
    ghost set_up: { ReadsUnlessFailed records },
}

impl<R: Read> RowReader<R> {
    ghost use Rattle.ob_csv.specs.RowReading.{rows_left, has_stopped};

    /// Makes a reader of the rows of `text`.
    pub fn new(alloc: Global, text: R) -> RowReader<R>
        ensures rows { rows_left R.remaining result ≡ option_map rows_of (R.remaining text) }
        ensures going { has_stopped result ≡ false }
    {
        let records = ReaderBuilder::new()
            .has_headers(false)
            .flexible(true)
            .from_reader(alloc, text);
        RowReader { records }
    }

    /// Puts the next row into `row`, and answers whether there was one.
    ///
    /// # Errors
    ///
    /// `Fault::OutOfMemory` if an allocation failed. If `text` is a reader that can fail, the same
    /// fault also reports its failure; the owner of that reader can tell which of the two happened.
    /// After an error, `row` may hold anything, and the reader gives no further row.
    pub fn next_row(&mut self, row: &mut Row) -> Result<bool, Stop>
        ensures takes { IfOk result (λ found. TakesRow (rows_left R.remaining self.old)
            (rows_left R.remaining self.new) found row.new) }
        ensures going { OnOk result (has_stopped self.new ≡ has_stopped self.old) }
        ensures memory { IfErr result (λ stop. stop ≡ out_of_memory) }
        ensures stops { IfErr result (λ _. has_stopped self.new ≡ true) }
        ensures stopped { has_stopped self.old ≡ true → result ≡ Ok false }
    {
        match self.records.read_byte_record(&mut row.fields) {
            Ok(found) => Ok(found),
            Err(_) => Err(Stop::Fault(Fault::OutOfMemory)),
        }
    }
}
