//! Streams in their order, and the answer to each.
use crate::desk::{Desk, Trial, Tried, over_a_book, over_a_store, told};
use crate::texts::{GET_ALONE, NOT_FOUND, POST_ALONE, STORM, get, json, many, post};
use ob_base::Fault;
use ob_harness::texts::OUTAGE;
use std::alloc::{AllocError, Global};
use std::process::Abort;

/// A front, a middle text, the number of its repetitions, and an end.
pub type Many = (&'static [u8], &'static [u8], u32, &'static [u8]);

/// The bytes of a stream.
#[derive(Clone, Copy)]
pub enum Ask {
    /// A POST to a path, with a body.
    Post(&'static str, &'static str),
    /// These bytes.
    Text(&'static [u8]),
    /// These bytes, followed by a request that enters a cause, which the desk doesn't read.
    Last(&'static [u8]),
    /// These bytes, with a repeated part.
    Many(Many),
}

/// The written bytes.
#[derive(Clone, Copy)]
pub enum Reply {
    /// A reply with this status and this body in JSON.
    Json(&'static str, &'static str),
    /// These bytes.
    Text(&'static [u8]),
    /// These bytes, with a repeated part.
    Many(Many),
}

/// A stream, how it ends, after a number of replies or by a fault, and the written bytes.
pub type Row = (Ask, Result<u32, Fault>, Reply);

/// Streams, one after the other, and the number of commands that the book then has.
#[derive(Drop)]
pub struct Script<'r> {
    pub rows: &'r [Row],
    pub commands: Option<u32>,
}

fn bytes_of_ask(alloc: Global, ask: &Ask) -> Result<Vec<u8>, AllocError> {
    match ask {
        Ask::Post(path, body) => post(alloc, path, body),
        Ask::Text(bytes) => bytes.to_vec(alloc),
        Ask::Last(bytes) => many(alloc, &(bytes, b"", 0, STORM)),
        Ask::Many(parts) => many(alloc, parts),
    }
}

fn bytes_of_reply(alloc: Global, reply: &Reply) -> Result<Vec<u8>, AllocError> {
    match reply {
        Reply::Json(status, body) => json(alloc, status, body),
        Reply::Text(bytes) => bytes.to_vec(alloc),
        Reply::Many(parts) => many(alloc, parts),
    }
}

fn stands<D: Desk>(desk: &mut D, commands: Option<u32>) -> bool {
    match commands {
        Some(count) => desk.stands_with(count),
        None => desk.commands().is_none(),
    }
}

impl Trial for Script<'_> {
    fn run<A: Abort, D: Desk>(&self, rt: &A, alloc: Global, desk: &mut D) -> Tried {
        let mut no = 0usize;
        for (ask, end, reply) in self.rows {
            no = no.saturating_add(1);
            let text = bytes_of_ask(alloc, ask)?;
            let wanted = bytes_of_reply(alloc, reply)?;
            assert!(rt; told(alloc, desk, &text).is(*end, &wanted), "stream {no}");
        }
        assert!(rt; stands(desk, self.commands));
        Ok(())
    }
}

/// Checks the answers of a desk over a new book to streams, one after the other, and the number of
/// commands that the book then has.
pub fn are_answered(
    rt: &impl Abort,
    alloc: Global,
    rows: &[Row],
    commands: u32,
) -> Result<(), AllocError> {
    let commands = Some(commands);
    over_a_book(rt, alloc, &Script { rows, commands })
}

/// Requests on a stream each, one after the other, on the book of the outage or without a book; and
/// the number of commands that the book then has. A line has the method, the path and the body, ` => `,
/// the status of the reply and its body in JSON. A reply with 404 has no body, and one with 405 names
/// the other method. With the method `*` both GET and POST are sent.
#[derive(Drop)]
pub struct Lines {
    lines: &'static str,
    commands: Option<u32>,
}

fn bytes_asked(alloc: Global, method: &str, asked: &str) -> Result<Vec<u8>, AllocError> {
    let (path, body) = asked.split_once(" ").unwrap_or((asked, ""));
    if method == "GET" {
        get(alloc, path)
    } else {
        post(alloc, path, body)
    }
}

fn bytes_wanted(alloc: Global, wanted: &str) -> Result<Vec<u8>, AllocError> {
    let (status, body) = wanted.split_once(" ").unwrap_or((wanted, ""));
    if status == "404" {
        NOT_FOUND.to_vec(alloc)
    } else if status == "405" && body == "GET" {
        GET_ALONE.to_vec(alloc)
    } else if status == "405" {
        POST_ALONE.to_vec(alloc)
    } else if status == "409" {
        json(alloc, "409 Conflict", body)
    } else if status == "422" {
        json(alloc, "422 Unprocessable Entity", body)
    } else {
        json(alloc, "200 OK", body)
    }
}

fn is_answered<D: Desk>(
    rt: &impl Abort,
    alloc: Global,
    desk: &mut D,
    method: &str,
    line: &str,
) -> Result<(), AllocError> {
    let (asked, wanted) = line.split_once(" => ").unwrap_or((line, ""));
    let text = bytes_asked(alloc, method, asked)?;
    let wanted = bytes_wanted(alloc, wanted)?;
    assert!(rt;
        told(alloc, desk, &text).is(Ok(1), &wanted),
        "{method} {line}"
    );
    Ok(())
}

impl Trial for Lines {
    fn run<A: Abort, D: Desk>(&self, rt: &A, alloc: Global, desk: &mut D) -> Tried {
        if self.commands.is_some() {
            assert!(rt; told(alloc, desk, &post(alloc, "/import", OUTAGE)?).end == Ok(1));
        }
        for line in self.lines.lines() {
            let (method, rest) = line.split_once(" ").unwrap_or((line, ""));
            if method == "*" {
                is_answered(rt, alloc, desk, "GET", rest)?;
                is_answered(rt, alloc, desk, "POST", rest)?;
            } else {
                is_answered(rt, alloc, desk, method, rest)?;
            }
        }
        assert!(rt; stands(desk, self.commands));
        Ok(())
    }
}

/// Checks the replies to requests on the book of the outage, or without a book, and the number of
/// commands that the book then has.
pub fn lines_are_answered(
    rt: &impl Abort,
    alloc: Global,
    lines: &'static str,
    commands: Option<u32>,
) -> Result<(), AllocError> {
    over_a_store(rt, alloc, commands.is_some(), &Lines { lines, commands })
}
