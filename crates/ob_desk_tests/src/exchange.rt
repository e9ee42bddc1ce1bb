//! Tests of the worked exchange: whole, in pieces, cut, and with readers and writers that fail.
use crate::desk::{Desk, Stream, Trial, Tried, ends_so, over_a_book, told};
use crate::script::{Ask, Reply, Row, are_answered};
use crate::streams::{WHOLE, Ways, pieces};
use crate::texts::{FIRST, STORM, json, post};
use ob_base::Fault;
use ob_harness::{FULL, JOLTING, Way};
use std::alloc::{AllocError, Global};
use std::io::ErrorKind;
use std::process::Abort;

/// Streams, one after the other, and the number of commands that the book then has.
#[derive(Drop)]
pub struct Streams<'r> {
    pub rows: &'r [Stream<'r>],
    pub commands: u32,
}

impl Trial for Streams<'_> {
    fn run<A: Abort, D: Desk>(&self, rt: &A, alloc: Global, desk: &mut D) -> Tried {
        let mut no = 0usize;
        for stream in self.rows {
            no = no.saturating_add(1);
            ends_so(rt, alloc, desk, no, stream);
        }
        assert!(rt; desk.stands_with(self.commands));
        Ok(())
    }
}

// The exchange in a way.
fn exchange(way: Ways) -> Stream<'static> {
    Stream {
        text: STORM,
        way,
        end: Ok(1),
        written: FIRST,
        commands: Some(1),
    }
}

// Byte by byte; the reader and the writer are interrupted before each byte.
const JOLTED: Ways = Ways {
    reads: JOLTING,
    writes: JOLTING,
    ..WHOLE
};

#[test]
fn whole_and_in_pieces(rt: HostRuntime) -> Result<(), AllocError> {
    for step in [1, 2, 64, 115, 4_096] {
        let rows = &[exchange(pieces(step))];
        over_a_book(&rt, rt.alloc(), &Streams { rows, commands: 1 })?;
    }
    let rows = &[exchange(JOLTED)];
    over_a_book(&rt, rt.alloc(), &Streams { rows, commands: 1 })
}

// The exchange twice in one stream, and once more in another.
const TWICE: &[Row] = &[
    (
        Ask::Many((b"", STORM, 2, b"")),
        Ok(2),
        Reply::Many((b"", FIRST, 2, b"")),
    ),
    (Ask::Text(STORM), Ok(1), Reply::Text(FIRST)),
];

#[test]
fn twice(rt: HostRuntime) -> Result<(), AllocError> {
    are_answered(&rt, rt.alloc(), TWICE, 1)
}

// Writers that fail after each number of bytes of a reply of 90, and two that take no further byte.
struct Writers;

impl Trial for Writers {
    fn run<A: Abort, D: Desk>(&self, rt: &A, alloc: Global, desk: &mut D) -> Tried {
        for room in 0..FIRST.len() {
            breaks_off(rt, alloc, desk, room, FULL)?;
        }
        breaks_off(rt, alloc, desk, 0, ob_harness::WHOLE)?;
        breaks_off(rt, alloc, desk, 40, ob_harness::WHOLE)?;
        assert!(rt; desk.stands_with(92));
        Ok(())
    }
}

// Checks a writer with this much room: it gets just that front of a reply, the book has one more
// command, and the repeated request gets the reply.
fn breaks_off<D: Desk>(
    rt: &impl Abort,
    alloc: Global,
    desk: &mut D,
    room: usize,
    writes: Way,
) -> Result<(), AllocError> {
    let no = desk.commands().unwrap_or(0).saturating_add(1);
    let request = bus(alloc, no)?;
    let wanted = accepted(alloc, no)?;
    let broken = Stream {
        text: &request,
        way: Ways {
            room,
            writes,
            ..WHOLE
        },
        end: Err(Fault::Output),
        written: &wanted[..room.min(wanted.len())],
        commands: Some(no),
    };
    ends_so(rt, alloc, desk, room, &broken);
    assert!(rt; told(alloc, desk, &request).is(Ok(1), &wanted));
    assert!(rt; desk.commands() == Some(no));
    Ok(())
}

// A request that adds the bus of a number.
fn bus(alloc: Global, no: u32) -> Result<Vec<u8>, AllocError> {
    let body = format!(in alloc; "{{\"kind\":\"bus\",\"ref\":\"R{no}\",\"f1\":\"B{no}\"}}")?;
    post(alloc, "/commands", body.as_str())
}

// The reply to the command of a number that moves nothing.
fn accepted(alloc: Global, no: u32) -> Result<Vec<u8>, AllocError> {
    let body = format!(in alloc; "{{\"moved\":[],\"no\":{no}}}")?;
    json(alloc, "200 OK", body.as_str())
}

#[test]
fn writers_that_fail(rt: HostRuntime) -> Result<(), AllocError> {
    over_a_book(&rt, rt.alloc(), &Writers)
}

// The exchange followed by another cause under the reference R2, and both replies.
const BOTH: &'static [u8] = b"\
POST /commands HTTP/1.1\r\nHost: localhost\r\nContent-Length: 49\r\n\r\n\
{\"kind\":\"cause\",\"ref\":\"R1\",\"f1\":\"3\",\"f2\":\"STORM\"}\
POST /commands HTTP/1.1\r\nHost: localhost\r\nContent-Length: 51\r\n\r\n\
{\"kind\":\"cause\",\"ref\":\"R2\",\"f1\":\"4\",\"f2\":\"PLANNED\"}";

const REPLIES: &'static [u8] = b"\
HTTP/1.1 200 OK\r\nContent-Type: application/json\r\nContent-Length: 19\r\n\r\n{\"moved\":[],\"no\":1}\
HTTP/1.1 200 OK\r\nContent-Type: application/json\r\nContent-Length: 19\r\n\r\n{\"moved\":[],\"no\":2}";

// The number of requests of the two that are whole in this many bytes of both.
fn whole_in(count: usize, first: &[u8], both: &[u8]) -> u32 {
    if count < first.len() {
        0
    } else if count < both.len() {
        1
    } else {
        2
    }
}

// The replies to this many of the two requests.
fn replies(whole: u32) -> &'static [u8] {
    match whole {
        0 => b"",
        1 => FIRST,
        _ => REPLIES,
    }
}

// Fronts of the two requests in a way, from `first` to `last` bytes long. Each ends in a fault, and
// only the whole requests have been applied. A stream without a byte ends without a fault.
#[derive(Drop)]
struct Fronts {
    first: usize,
    last: usize,
    way: Ways,
    commands: u32,
}

impl Trial for Fronts {
    fn run<A: Abort, D: Desk>(&self, rt: &A, alloc: Global, desk: &mut D) -> Tried {
        for count in self.first..=self.last {
            let whole = whole_in(count, STORM, BOTH);
            let stream = Stream {
                text: &BOTH[..count.min(BOTH.len())],
                way: self.way,
                end: Err(Fault::Input),
                written: replies(whole),
                commands: Some(whole),
            };
            ends_so(rt, alloc, desk, count, &stream);
        }
        assert!(rt; told(alloc, desk, b"").is(Ok(0), b""));
        assert!(rt; desk.stands_with(self.commands));
        Ok(())
    }
}

#[test]
fn cut_anywhere(rt: HostRuntime) -> Result<(), AllocError> {
    let fronts = Fronts {
        first: 1,
        last: STORM.len() - 1,
        way: pieces(9),
        commands: 0,
    };
    over_a_book(&rt, rt.alloc(), &fronts)
}

// All bytes at once, and then a failure.
const FAILING: Ways = Ways {
    reads: FULL,
    ..WHOLE
};

#[test]
fn readers_that_fail(rt: HostRuntime) -> Result<(), AllocError> {
    let fronts = Fronts {
        first: 0,
        last: BOTH.len(),
        way: FAILING,
        commands: 2,
    };
    over_a_book(&rt, rt.alloc(), &fronts)
}

// All bytes at once, and then interruptions without end.
const STUCK: Ways = Ways {
    reads: Way {
        end: Some(ErrorKind::Interrupted),
        ..FULL
    },
    ..WHOLE
};

// A stream that is interrupted without end after these bytes: it ends in a fault, these replies are
// written, and the book has this number of commands.
fn stuck(text: &'static [u8], written: &'static [u8], commands: u32) -> Stream<'static> {
    Stream {
        text,
        way: STUCK,
        end: Err(Fault::Input),
        written,
        commands: Some(commands),
    }
}

#[test]
fn readers_interrupted_for_ever(rt: HostRuntime) -> Result<(), AllocError> {
    let rows = &[
        stuck(b"", b"", 0),
        stuck(&STORM[..20], b"", 0),
        stuck(&STORM[..80], b"", 0),
        stuck(STORM, FIRST, 1),
    ];
    over_a_book(&rt, rt.alloc(), &Streams { rows, commands: 1 })
}
