//! The arguments of the command line, and the job that they name.
ghost use Rattle.std.specs.Prelude.{◌≡◌, IfOk, map, string_bytes};
ghost use Rattle.std.specs.IoError.{error_kind};
ghost use Rattle.outagebook.specs.Arguments.{IsJobOf, IsUnread};

use ob_base::Fault;
use ob_cli::{Job, WrongWords, read_words};
use std::alloc::{AllocError, Global};
use std::env::{self, Env};
use std::io;

/// Returns the job that the arguments of the command line name.
pub(crate) fn job_of<R: Env + AllocGlobal>(rt: &R) -> Result<Job, WrongWords> {
    job_in(rt.alloc(), words_of(rt))
}

/// Returns the arguments of the command line, the program's name first.
fn words_of<R: Env + AllocGlobal>(rt: &R) -> io::Result<Vec<String>> {
    Ok(env::args(rt)?.collect(rt.alloc())?)
}

/// Returns the job that arguments name, if they could be read.
fn job_in(alloc: Global, words: io::Result<Vec<String>>) -> Result<Job, WrongWords>
    ensures { IsJobOf words result }
{
    let words = match words {
        Ok(words) => words,
        Err(error) => return Err(unread_words(alloc, &error)),
    };
    match texts_of(alloc, &words) {
        Ok(texts) => read_words(alloc, &texts),
        Err(_) => Err(WrongWords::Fault(Fault::OutOfMemory)),
    }
}

/// Returns the texts of arguments.
fn texts_of(alloc: Global, words: &[String]) -> Result<Vec<&str>, AllocError>
    ensures { IfOk result (λ texts. map (λ text. text.now) texts.items ≡ map string_bytes words.now) }
{
    let mut texts = Vec::new(alloc);
    for word in words {
        texts.push(word.as_str())?;
    }
    Ok(texts)
}

/// Returns why the arguments can't be read: they are not valid texts, or an allocation failed.
fn unread_words(alloc: Global, error: &io::Error) -> WrongWords
    ensures { IsUnread (error_kind error.now) result }
{
    if error.kind() == io::ErrorKind::OutOfMemory {
        return WrongWords::Fault(Fault::OutOfMemory);
    }
    match String::from_str(alloc, "error: the words are not UTF-8\n") {
        Ok(text) => WrongWords::Wrong(text),
        Err(_) => WrongWords::Fault(Fault::OutOfMemory),
    }
}
