//! Steps with a `Keeper` over a store in memory, one after another, and the answer to each.
use crate::office::{InMemory, Office};
use crate::rows::ROWS;
use crate::texts::{answer_text, stored_text};
use ob_net::Stop;
use ob_post::Dim;
use std::alloc::Global;
use std::process::Abort;

/// A step with a `Keeper`, and the expected answer.
#[derive(Clone, Copy)]
pub enum Step {
    /// Goes on with a `Keeper` over another, empty database.
    Open,
    /// Creates a book of a first day, this many days and a zone; the expected answer is success or
    /// a refusal.
    Make(&'static [u8], u16, &'static [u8], Result<(), Stop>),
    /// Sends the lines of a script, which get the answers in them.
    Tell(&'static str),
    /// Plans the command of a line: the plan's text, or why there is none.
    Plan(&'static str, &'static str),
    /// Asks for the stored reply of a command.
    Reply(u32, &'static str),
    /// Runs these statements, and goes on with another `Keeper`, without a book.
    Change(&'static str),
    /// Audits: the named table, `none`, or the reason why there is no answer.
    Audit(&'static str),
    /// Loads the book: success or a refusal.
    Load(Result<(), Stop>),
    /// Migrates: whether the tables were of version 1 and are now of version 2, or a refusal.
    Migrate(Result<bool, Stop>),
    /// Checks whether there is a book.
    Has(bool),
    /// Shows the book for a key: how the text begins, or `none`.
    Show(Dim, u16, &'static str),
    /// Notes what the book shows, the stored replies and the lives of the devices.
    Note,
    /// Checks that all of these equal the noted ones.
    Same,
    /// Notes the rows of the tables, and goes on with another `Keeper`, without a book.
    NoteRows,
    /// Checks that the rows equal the noted ones, and goes on with another `Keeper`, without a
    /// book.
    SameRows,
    /// Checks that another `Keeper` loads the same tables and then shows the same book, the same
    /// lives and the same replies.
    Reopen,
    /// Checks the number that a query finds, and goes on with another `Keeper`, without a book.
    Find(&'static str, i64),
    /// Checks the numbers of rows in the tables: the period, causes, nodes, devices, lives,
    /// customers, entries, marked days, commands, moves, amounts. The amounts of each dimension add
    /// up to the total, and each is the sum of the moves under its key.
    Leave(&'static [i64], i64),
}

/// A new book of 2024-01-01 in UTC.
pub const NEW: Step = Step::Make(b"2024-01-01", 1, b"UTC0", Ok(()));

// What the steps noted, and the last script or change of the tables.
#[derive(Drop)]
struct Noted {
    shown: Vec<u8>,
    rows: Vec<u8>,
    last: &'static str,
}

/// Checks steps, one part after another, with a `Keeper` over an empty store in memory. The message
/// about a failed step has the text of the last script or change of the tables.
pub fn tell(rt: &impl Abort, alloc: Global, parts: &[&[Step]]) -> Result<(), Stop> {
    let mut noted = Noted {
        shown: Vec::new(alloc),
        rows: Vec::new(alloc),
        last: "",
    };
    let mut office = InMemory::opens(alloc)?;
    for steps in parts {
        office = goes_on(rt, alloc, office, &mut noted, steps)?;
    }
    Ok(())
}

/// Checks each change of the tables of a book and, after ` => `, the answer to an audit then; and
/// the steps that follow each.
pub fn spoil(
    rt: &impl Abort,
    alloc: Global,
    book: &[Step],
    changes: &[&'static str],
    then: &[Step],
) -> Result<(), Stop> {
    for change in changes {
        match change.split_once(" => ") {
            Some((sql, wanted)) => {
                tell(
                    rt,
                    alloc,
                    &[book, &[Step::Change(sql), Step::Audit(wanted)], then],
                )?
            }
            None => tell(rt, alloc, &[book, &[Step::Change(*change)], then])?,
        }
    }
    Ok(())
}

/// Checks a script on a book that another `Keeper` loads, as it does what the script leaves; that
/// has these numbers of rows and this total.
pub fn leave(
    rt: &impl Abort,
    alloc: Global,
    book: &[Step],
    script: &'static str,
    rows: &'static [i64],
    total: i64,
) -> Result<(), Stop> {
    let told = &[Step::Reopen, Step::Tell(script), Step::Reopen];
    tell(rt, alloc, &[book, told, &[Step::Leave(rows, total)]])
}

fn goes_on<O: Office>(
    rt: &impl Abort,
    alloc: Global,
    office: O,
    noted: &mut Noted,
    steps: &[Step],
) -> Result<O, Stop> {
    let mut office = office;
    for (place, step) in steps.iter().enumerate() {
        match step {
            Step::Change(text) => noted.last = *text,
            Step::Tell(text) => noted.last = *text,
            _ => {}
        }
        let (next, holds) = taken(rt, alloc, office, noted, step)?;
        let last = noted.last;
        assert!(rt; holds, "{last}: step {place}, from 0");
        office = next;
    }
    Ok(office)
}

// The `Keeper` that goes on after a step, and whether the answer is the expected one.
fn taken<O: Office>(
    rt: &impl Abort,
    alloc: Global,
    office: O,
    noted: &mut Noted,
    step: &Step,
) -> Result<(O, bool), Stop> {
    match step {
        Step::Open => Ok((O::opens(alloc)?, true)),
        Step::Change(sql) => Ok((office.again(alloc, *sql)?, true)),
        Step::Reopen => reopened(alloc, office, noted),
        Step::NoteRows => {
            let (again, rows) = office.rows(alloc, ROWS)?;
            noted.rows = rows;
            Ok((again, true))
        }
        Step::SameRows => {
            let (again, rows) = office.rows(alloc, ROWS)?;
            Ok((again, rows == noted.rows))
        }
        Step::Find(sql, wanted) => {
            let (again, numbers) = office.numbers(alloc, &[*sql])?;
            Ok((again, numbers.as_slice() == [*wanted].as_slice()))
        }
        Step::Leave(rows, total) => leaves(alloc, office, rows, *total),
        _ => {
            let mut office = office;
            let holds = is_answered(rt, alloc, &mut office, noted, step)?;
            Ok((office, holds))
        }
    }
}

fn is_answered<O: Office>(
    rt: &impl Abort,
    alloc: Global,
    office: &mut O,
    noted: &mut Noted,
    step: &Step,
) -> Result<bool, Stop> {
    match step {
        Step::Make(first, days, zone, wanted) => Ok(office.makes(first, *days, zone) == *wanted),
        Step::Tell(script) => is_answered_so(rt, alloc, office, script),
        Step::Plan(line, wanted) => Ok(is_planned(office, line, wanted)),
        Step::Reply(no, wanted) => is_stored(alloc, office, *no, wanted),
        Step::Audit(wanted) => Ok(office.audits() == *wanted),
        Step::Load(wanted) => Ok(office.loads() == *wanted),
        Step::Migrate(wanted) => Ok(office.migrates() == *wanted),
        Step::Has(wanted) => Ok(office.has_book() == *wanted),
        Step::Show(dim, key, wanted) => Ok(office.shows(alloc, *dim, *key)?.starts_with(*wanted)),
        Step::Note => note(alloc, office, noted),
        Step::Same => is_same(alloc, office, noted),
        _ => Ok(true),
    }
}

// Checks that the lines of a script get the answers in them, one after another.
fn is_answered_so<O: Office>(
    rt: &impl Abort,
    alloc: Global,
    office: &mut O,
    script: &str,
) -> Result<bool, Stop> {
    for line in script.lines() {
        let (asked, wanted) = line.split_once(" => ").unwrap_or((line, ""));
        let found = answer_text(alloc, &office.acts(asked))?;
        assert!(rt; found.as_str() == wanted, "{asked}: {found}");
    }
    Ok(true)
}

fn is_planned<O: Office>(office: &mut O, line: &str, wanted: &str) -> bool {
    match office.plans(line) {
        Ok(text) => text.as_slice() == wanted.as_bytes(),
        Err(stop) => stop.name() == wanted,
    }
}

fn is_stored<O: Office>(
    alloc: Global,
    office: &mut O,
    no: u32,
    wanted: &str,
) -> Result<bool, Stop> {
    let found = stored_text(alloc, &office.replies(no))?;
    Ok(found.as_str() == wanted)
}

// What the book shows, with its devices' lives, and the stored replies of its commands, of which
// there are fewer than forty.
fn shown<O: Office>(alloc: Global, office: &mut O) -> Result<Vec<u8>, Stop> {
    let mut text = office.texts(alloc)?;
    for no in 0..40 {
        let reply = stored_text(alloc, &office.replies(no))?;
        text.extend_from_slice(reply.as_bytes())?;
    }
    Ok(text)
}

fn note<O: Office>(alloc: Global, office: &mut O, noted: &mut Noted) -> Result<bool, Stop> {
    noted.shown = shown(alloc, office)?;
    Ok(true)
}

fn is_same<O: Office>(alloc: Global, office: &mut O, noted: &Noted) -> Result<bool, Stop> {
    Ok(shown(alloc, office)? == noted.shown)
}

fn reopened<O: Office>(alloc: Global, mut office: O, noted: &mut Noted) -> Result<(O, bool), Stop> {
    note(alloc, &mut office, noted)?;
    let mut again = office.again(alloc, "")?;
    let is_sound = again.audits() == "none" && again.loads() == Ok(());
    let holds = is_sound && is_same(alloc, &mut again, noted)?;
    Ok((again, holds))
}

fn leaves<O: Office>(
    alloc: Global,
    office: O,
    rows: &[i64],
    total: i64,
) -> Result<(O, bool), Stop> {
    let (office, counts) = office.numbers(alloc, COUNTS)?;
    let (office, sums) = office.numbers(alloc, SUMS)?;
    let add_up = sums.as_slice() == [total, total, total, 0].as_slice();
    Ok((office, counts.as_slice() == rows && add_up))
}

/// The number of rows of each table.
const COUNTS: &'static [&'static str] = &[
    "SELECT count(*) FROM meta",
    "SELECT count(*) FROM cause",
    "SELECT count(*) FROM node",
    "SELECT count(*) FROM device",
    "SELECT count(*) FROM life",
    "SELECT count(*) FROM customer",
    "SELECT count(*) FROM entry",
    "SELECT count(*) FROM mark",
    "SELECT count(*) FROM cmd",
    "SELECT count(*) FROM moved",
    "SELECT count(*) FROM posting",
];

/// The sum of each dimension's amounts, and how many amounts differ from the sum of the moves under
/// their key.
const SUMS: &'static [&'static str] = &[
    "SELECT sum(amount) FROM posting WHERE dim = 1",
    "SELECT sum(amount) FROM posting WHERE dim = 2",
    "SELECT sum(amount) FROM posting WHERE dim = 3",
    "SELECT count(*) FROM posting WHERE amount <> (SELECT coalesce(sum(delta), 0) FROM moved \
     WHERE moved.dim = posting.dim AND moved.k = posting.k)",
];
