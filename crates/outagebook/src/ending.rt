//! What the program prints at its end, and its exit status.
ghost use Rattle.std.specs.Prelude.{◌≡◌, IfOk, string_bytes};
ghost use Rattle.outagebook.specs.Ending.{Answers, Complains, TellsEnd, TriesToTell, TriesToWrite, WritesOrFails, answer_text, stop_line};

use ob_base::{Fault, Stop};
use ob_cli::{Unfinished, WrongWords, complaint_of, status_of_run};
use ob_stream::{Retries, Watched, write_text};
use std::alloc::{AllocError, Global};
use std::io::Write;

/// Prints help or the version on standard output, or on standard error why the job wasn't done.
/// Returns the exit status: that of the run, or 1 if help or the version can't be printed.
pub(crate) fn tell_end<W: Write, E: Write>(
    alloc: Global,
    run: Result<(), Unfinished>,
    out: &mut Watched<W>,
    err: &mut Watched<E>,
) -> u8
    ensures { TellsEnd W.contents E.contents run out.old out.new err.old err.new result }
{
    let end = answer(run, out);
    complain(alloc, &end, err);
    status_of_run(&end)
}

/// Prints help or the version, if the arguments ask for it. Returns the run unchanged, except that
/// a text that can't be printed is a fault.
fn answer<W: Write>(run: Result<(), Unfinished>, out: &mut Watched<W>) -> Result<(), Unfinished>
    ensures { Answers W.contents run out.old out.new result }
{
    match write_all(out, answer_text(&run)) {
        Ok(()) => run,
        Err(fault) => Err(Unfinished::Stopped(Stop::Fault(fault), None)),
    }
}

/// The text of help or of the version; empty if the arguments didn't ask for it.
fn answer_text(run: &Result<(), Unfinished>) -> &[u8]
    ensures { result.now ≡ answer_text run.now }
{
    match run {
        Err(Unfinished::Words(WrongWords::Help(text))) => text.as_bytes(),
        Err(Unfinished::Words(WrongWords::Version(text))) => text.as_bytes(),
        _ => &[],
    }
}

/// Prints on standard error why the job wasn't done. An audit has printed that tables differ.
fn complain<E: Write>(alloc: Global, end: &Result<(), Unfinished>, err: &mut Watched<E>)
    ensures { Complains E.contents end.now err.old err.new }
{
    match end {
        Ok(()) => {}
        Err(Unfinished::Words(WrongWords::Help(_) | WrongWords::Version(_))) => {}
        Err(Unfinished::Words(WrongWords::Wrong(text))) => tell_text(text.as_bytes(), err),
        Err(Unfinished::Words(WrongWords::Fault(fault))) => {
            tell_stop(alloc, &Stop::Fault(*fault), None, err);
        }
        Err(Unfinished::Stopped(stop, row)) => tell_stop(alloc, stop, *row, err),
        Err(Unfinished::Differs) => {}
    }
}

/// Prints why a job ended early, and LF.
pub(crate) fn tell_stop<E: Write>(
    alloc: Global,
    stop: &Stop,
    row: Option<u32>,
    err: &mut Watched<E>,
)
    ensures { TriesToTell E.contents err.old err.new (stop_line stop.now row) }
{
    if let Ok(line) = line_of(alloc, stop, row) {
        tell_text(line.as_bytes(), err);
    }
}

fn line_of(alloc: Global, stop: &Stop, row: Option<u32>) -> Result<String, AllocError>
    ensures { IfOk result (λ line. string_bytes line ≡ stop_line stop.now row) }
{
    let mut line = complaint_of(alloc, stop, row)?;
    line.push('\n')?;
    Ok(line)
}

/// Prints a text; a writer that fails gets no more of it.
fn tell_text<E: Write>(text: &[u8], err: &mut Watched<E>)
    ensures { TriesToWrite E.contents err.old err.new text.now }
{
    let _ = write_all(err, text);
}

/// Writes all of a text, or a first part if the writer fails.
pub(crate) fn write_all<W: Write>(writer: &mut Watched<W>, text: &[u8]) -> Result<(), Fault>
    ensures { WritesOrFails W.contents writer.old writer.new text.now result }
{
    let mut retries = Retries::new();
    write_text(writer, &mut retries, text)
}
