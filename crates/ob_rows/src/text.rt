//! The lines of interruption rows in CSV.
ghost use Rattle.std.specs.Prelude.{◌≡◌, ◌++◌, ◌∷◌, [], decimal, IfOk, IfSome, OnOk, true};
ghost use Rattle.ob_book.specs.Forecasts.{name_of_node};
ghost use Rattle.ob_rows.specs.Moments.{moment_text};
ghost use Rattle.ob_rows.specs.RowText.{IsStartOf, cause_field, mark_word, optional, row_line, start_text};

use crate::known::{Known, push_known};
use crate::moment::push_second;
use crate::row::InterruptionRow;
use itoa::Buffer;
use ob_base::Second;
use ob_book::Book;
use ob_sweep::Timeline;
use std::alloc::{AllocError, Global};
use std::marker::Model;

/// Appends the lines of rows of a book to texts. The section and the cause stand by their names.
///
/// Keeps the start of the last line, since a row mostly has the section and the service of the one
/// before it, and the texts of some moments.
#[derive(Drop)]
pub struct RowText<'b, T: Timeline> {
    book: &'b Book<T>,
    start: Vec<u8>,
    row: Option<InterruptionRow>,
    known: Vec<Known>,
}

impl<'b, T: Timeline> Model for RowText<'b, T> {
    ghost use Rattle.ob_state.specs.State.{BookState};
    ghost use Rattle.ob_rows.specs.RowText.{IsStartOf};

    ghost Value = { BookState };

    ghost view = { λ t. t.book.now.state };

    ghost invariant = { λ t. IsStartOf t.book.now.state t.row t.start.items };
}

impl<'b, T: Timeline> RowText<'b, T> {
    ghost use Rattle.std.specs.Prelude.{◌≡◌, ◌++◌, OnOk};
    ghost use Rattle.ob_rows.specs.RowText.{row_line};

    /// The texts of the rows of this book.
    pub fn new(alloc: Global, book: &'b Book<T>) -> RowText<'b, T>
        ensures { result ≡ book.now.state }
    {
        RowText {
            book,
            start: Vec::new(alloc),
            row: None,
            known: Vec::new(alloc),
        }
    }

    /// Appends the line of a row: its ten fields with commas between them, and LF. Fails only if an
    /// allocation fails.
    pub fn push_line(&mut self, text: &mut Vec<u8>, row: &InterruptionRow) -> Result<(), AllocError>
        ensures line { OnOk result (text.new.items ≡ text.old.items ++ row_line self.old row.now) }
        ensures book { self.new ≡ self.old }
    {
        keep_start(&mut self.start, &mut self.row, self.book, row)?;
        text.extend_from_slice(&self.start)?;
        push_end(text, &mut self.known, self.book, row)
    }
}

// Makes a text the start of a row's line, unless it is that already.
fn keep_start<T: Timeline>(
    start: &mut Vec<u8>,
    kept: &mut Option<InterruptionRow>,
    book: &Book<T>,
    row: &InterruptionRow,
) -> Result<(), AllocError>
    requires { IsStartOf book.now.state kept.old start.old.items }
    ensures made { OnOk result (start.new.items ≡ start_text book.now.state row.now) }
    ensures kept { IsStartOf book.now.state kept.new start.new.items }
{
    if let Some(last) = *kept {
        if has_same_start(&last, row) {
            return Ok(());
        }
    }
    *kept = None;
    start.clear();
    push_start(start, book, row)?;
    *kept = Some(*row);
    Ok(())
}

// Whether two rows have the same section and service.
fn has_same_start(last: &InterruptionRow, row: &InterruptionRow) -> bool
    ensures section { result ≡ true → last.now.section ≡ row.now.section }
    ensures feeder { result ≡ true → last.now.feeder ≡ row.now.feeder }
    ensures customers { result ≡ true → last.now.customers ≡ row.now.customers }
    ensures since { result ≡ true → last.now.service_since ≡ row.now.service_since }
    ensures until { result ≡ true → last.now.service_until ≡ row.now.service_until }
{
    last.section == row.section
        && last.feeder == row.feeder
        && last.customers == row.customers
        && last.service_since == row.service_since
        && last.service_until == row.service_until
}

// Appends the fields up to the end of service, with a comma behind each.
fn push_start<T: Timeline>(
    line: &mut Vec<u8>,
    book: &Book<T>,
    row: &InterruptionRow,
) -> Result<(), AllocError>
    ensures { OnOk result (line.new.items ≡ line.old.items
        ++ name_of_node book.now.state row.now.section ++ 44 ∷ decimal row.now.feeder
        ++ 44 ∷ decimal row.now.customers ++ 44 ∷ moment_text row.now.service_since
        ++ 44 ∷ optional moment_text row.now.service_until ++ 44 ∷ []) }
{
    push_name(line, book, row.section)?;
    line.push(b',')?;
    push_number(line, u32::from(row.feeder))?;
    line.push(b',')?;
    push_number(line, row.customers)?;
    line.push(b',')?;
    push_second(line, row.service_since)?;
    line.push(b',')?;
    push_end_of_service(line, row.service_until)?;
    line.push(b',')?;
    Ok(())
}

// Appends the fields from the first second on, and LF.
fn push_end<T: Timeline>(
    line: &mut Vec<u8>,
    known: &mut Vec<Known>,
    book: &Book<T>,
    row: &InterruptionRow,
) -> Result<(), AllocError>
    ensures { OnOk result (line.new.items ≡ line.old.items ++ moment_text row.now.since
        ++ 44 ∷ moment_text row.now.until ++ 44 ∷ cause_field book.now.state row.now.cause
        ++ 44 ∷ optional decimal row.now.entry ++ 44 ∷ mark_word row.now.marked ++ 10 ∷ []) }
{
    push_known(line, known, row.since)?;
    line.push(b',')?;
    push_known(line, known, row.until)?;
    line.push(b',')?;
    push_cause(line, book, row.cause)?;
    line.push(b',')?;
    push_entry(line, row.entry)?;
    line.push(b',')?;
    push_mark(line, row.marked)?;
    line.push(b'\n')?;
    Ok(())
}

// Appends the name of a node.
fn push_name<T: Timeline>(line: &mut Vec<u8>, book: &Book<T>, node: u16) -> Result<(), AllocError>
    ensures { OnOk result (line.new.items ≡ line.old.items ++ name_of_node book.now.state node) }
{
    let net = book.net();
    if node < net.nodes() {
        line.extend_from_slice(net.node_name(node).bytes())?;
    }
    Ok(())
}

// Appends the name of a cause.
fn push_cause<T: Timeline>(line: &mut Vec<u8>, book: &Book<T>, code: u8) -> Result<(), AllocError>
    ensures { OnOk result (line.new.items ≡ line.old.items ++ cause_field book.now.state code) }
{
    match book.cause_name(code) {
        Some(name) => line.extend_from_slice(name.bytes()),
        None => Ok(()),
    }
}

// Appends the end of service, if it has one.
fn push_end_of_service(line: &mut Vec<u8>, until: Option<Second>) -> Result<(), AllocError>
    ensures { OnOk result (line.new.items ≡ line.old.items ++ optional moment_text until) }
{
    match until {
        Some(second) => push_second(line, second),
        None => Ok(()),
    }
}

// Appends the number of an entry, if there is one.
fn push_entry(line: &mut Vec<u8>, entry: Option<u32>) -> Result<(), AllocError>
    ensures { OnOk result (line.new.items ≡ line.old.items ++ optional decimal entry) }
{
    match entry {
        Some(number) => push_number(line, number),
        None => Ok(()),
    }
}

// Appends the word for an interruption that begins on a major event day.
fn push_mark(line: &mut Vec<u8>, marked: bool) -> Result<(), AllocError>
    ensures { OnOk result (line.new.items ≡ line.old.items ++ mark_word marked) }
{
    if marked {
        line.extend_from_slice(b"yes")
    } else {
        Ok(())
    }
}

// Appends a number in decimal.
fn push_number(line: &mut Vec<u8>, number: u32) -> Result<(), AllocError>
    ensures { OnOk result (line.new.items ≡ line.old.items ++ decimal number) }
{
    line.extend_from_slice(Buffer::new().format(number).as_bytes())
}
