//! Tests of the interruption rows that a book hands out.
use crate::example::act_on;
use crate::feeders::TWO_FEEDERS;
use crate::step::{ONE_DAY, Span};
use ob_book::Book;
use ob_command::read_body;
use ob_net::Fault;
use ob_rows::{InterruptionRow, RowSink, each_row};
use ob_sweep::{Timeline, Windowed};
use ob_time::Period;
use std::alloc::Global;
use std::process::Abort;
use std::test::Fail;

// A sink that keeps the rows given to it, and fails when it has no room left.
#[derive(Drop)]
struct Shelf {
    rows: Vec<InterruptionRow>,
    room: usize,
}

impl RowSink for Shelf {
    ghost use Rattle.std.specs.Prelude.{⊤};

    ghost takes = { λ _ _ _ _. ⊤ };

    fn take(&mut self, row: &InterruptionRow) -> Result<(), Fault> {
        if self.rows.len() >= self.room {
            return Err(Fault::Output);
        }
        match self.rows.push(*row) {
            Ok(()) => Ok(()),
            Err(_) => Err(Fault::OutOfMemory),
        }
    }
}

/// The book of a period after the commands of scripts.
pub fn book_of(alloc: Global, span: Span, scripts: &[&str]) -> Result<Book<Windowed>, Fail> {
    let period = Period::from_text(alloc, span.0, span.1, span.2)?;
    let mut book = Book::new(alloc, period)?;
    for script in scripts {
        enter(alloc, &mut book, script)?;
    }
    Ok(book)
}

fn enter<T: Timeline>(alloc: Global, book: &mut Book<T>, script: &str) -> Result<(), Fail> {
    for body in script.lines() {
        let command = read_body(body.as_bytes()).ok_or("a command")?;
        let _ = act_on(alloc, book, &command)?;
    }
    Ok(())
}

// A row as a line: section, feeder, customers, their service, the interruption, cause, entry, and
// whether its day is marked.
fn line_of(alloc: Global, row: &InterruptionRow) -> Result<String, Fail> {
    let service = format!(in alloc;
        "{} {}",
        row.service_since,
        or_dash(alloc, row.service_until)?
    )?;
    let entry = or_dash(alloc, row.entry.map(u64::from))?;
    let day = if row.marked { "marked" } else { "-" };
    let line = format!(in alloc;
        "{} {} {} {service} {} {} {} {entry} {day}",
        row.section, row.feeder, row.customers, row.since, row.until, row.cause
    )?;
    Ok(line)
}

fn or_dash(alloc: Global, number: Option<u64>) -> Result<String, Fail> {
    match number {
        Some(number) => Ok(format!(in alloc; "{number}")?),
        None => Ok(String::from_str(alloc, "-")?),
    }
}

// Checks which rows a book hands out.
fn hands(rt: &impl Abort, alloc: Global, book: &Book<Windowed>, wanted: &str) -> Result<(), Fail> {
    let mut shelf = Shelf {
        rows: Vec::new(alloc),
        room: 1_000,
    };
    let count = each_row(book, &mut shelf).map_err(|_| "no room")?;
    assert!(rt; count == shelf.rows.len() as u64);
    assert!(rt; wanted.lines().count() == shelf.rows.len());
    for (row, line) in shelf.rows.iter().zip(wanted.lines()) {
        let found = line_of(alloc, row)?;
        assert!(rt; found.as_str() == line, "{found}");
    }
    Ok(())
}

// One customer joins in the outage, one leaves as it begins, and one leaves in it. A section that
// no device joins has no supply from the start.
const AROUND_AN_OUTAGE: &'static str = "\
switch B2 open 1704070800 4 K1
switch B2 close 1704074400 4 K1
connect 11 S3 1704072600 -
connect 12 S3 1704067200 1704070800
connect 13 S3 1704067200 1704071400
section S9 9
connect 14 S9 1704067200 -
mark 2024-01-01 E1
";

const AROUND_IT: &'static str = "\
4 2 5 1704067200 - 1704070800 1704074400 4 1 marked
4 2 1 1704067200 1704071400 1704070800 1704071400 4 1 marked
4 2 1 1704072600 - 1704072600 1704074400 4 1 marked
5 9 1 1704067200 - 1704067200 1704153600 0 - marked
";

#[test]
fn services_that_begin_and_end_around_an_outage(rt: HostRuntime) -> Result<(), Fail> {
    let book = book_of(rt.alloc(), ONE_DAY, &[TWO_FEEDERS, AROUND_AN_OUTAGE])?;
    hands(&rt, rt.alloc(), &book, AROUND_IT)
}

#[test]
fn a_sink_that_fails_gets_no_more_rows(rt: HostRuntime) -> Result<(), Fail> {
    let book = book_of(rt.alloc(), ONE_DAY, &[TWO_FEEDERS, AROUND_AN_OUTAGE])?;
    let mut shelf = Shelf {
        rows: Vec::new(rt.alloc()),
        room: 2,
    };
    let failed = matches!(each_row(&book, &mut shelf), Err(Fault::Output));
    assert!(rt; failed);
    assert!(rt; shelf.rows.len() == 2);
    Ok(())
}
