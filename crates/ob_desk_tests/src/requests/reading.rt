//! How a stream is read, shown as a text.
use crate::script::Many;
use crate::streams::Ways;
use crate::texts::many;
use ob_harness::{Sink, Source};
use ob_http_requests::{Ahead, HeadRefusal, Method, Next, Request, read_request};
use ob_stream::{Retries, Watched};
use std::alloc::{AllocError, Global};
use std::process::Abort;

/// The method, the target and the length of the body of a request, and what it asks of the
/// connection.
fn told_request(alloc: Global, request: &Request) -> Result<String, AllocError> {
    let method = match request.method {
        Method::Get => "GET ",
        Method::Post => "POST ",
    };
    let (target, length) = (request.target.as_str(), request.body.len());
    let waits = if request.waits { " waits" } else { "" };
    let closes = if request.closes { " closes" } else { "" };
    format!(in alloc; "{method}{target} {length}{waits}{closes};")
}

fn told_refusal(status: HeadRefusal) -> &'static str {
    match status {
        HeadRefusal::BadRequest => "400",
        HeadRefusal::NotImplemented => "501",
        HeadRefusal::LengthRequired => "411",
        HeadRefusal::PayloadTooLarge => "413",
        HeadRefusal::FieldsTooLarge => "431",
    }
}

/// The text of a reader's requests and of their end, followed by the bytes that were written.
fn told_of(alloc: Global, source: Source<'_>, sink: Sink) -> Result<String, AllocError> {
    let mut told = String::new(alloc);
    let mut reader = Watched::new(source);
    let mut writer = Watched::new(sink);
    told_requests(alloc, &mut told, &mut reader, &mut writer)?;
    let taken = writer.into_parts().0.taken;
    told.push_str(&String::from_utf8_lossy(alloc, &taken)?)?;
    Ok(told)
}

fn told_requests(
    alloc: Global,
    told: &mut String,
    reader: &mut Watched<Source>,
    writer: &mut Watched<Sink>,
) -> Result<(), AllocError> {
    let mut retries = Retries::new();
    let Ok(mut ahead) = Ahead::new(alloc) else {
        return Ok(());
    };
    for _ in 0..100 {
        match read_request(alloc, reader, writer, &mut retries, &mut ahead) {
            Ok(Next::Request(request)) => {
                told.push_str(&told_request(alloc, &request)?)?;
                if request.closes {
                    return Ok(());
                }
            }
            Ok(Next::Refused(status)) => return told.push_str(told_refusal(status)),
            Ok(Next::End) => return told.push_str("end"),
            Ok(Next::Cut) => return told.push_str("cut"),
            Err(_) => return told.push_str("fault"),
        }
    }
    Ok(())
}

/// Checks the text of the requests in these bytes, which come in a way, and of the bytes that were
/// written.
pub fn are_read(
    rt: &impl Abort,
    alloc: Global,
    bytes: &[u8],
    way: &Ways,
    told: &str,
) -> Result<(), AllocError> {
    let sink = Sink::new(alloc, way.room, way.writes);
    let found = told_of(alloc, Source::new(bytes, way.reads), sink)?;
    assert!(rt; found.as_str() == told, "{found}, not {told}");
    Ok(())
}

/// Checks the same of a text with a repeated middle part.
pub fn is_read(
    rt: &impl Abort,
    alloc: Global,
    parts: &Many,
    way: &Ways,
    told: &str,
) -> Result<(), AllocError> {
    let text = many(alloc, parts)?;
    are_read(rt, alloc, &text, way, told)
}
