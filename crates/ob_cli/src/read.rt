//! Reads the job from a list of arguments.
ghost use Rattle.std.specs.Prelude.{◌≡◌, IfErr, IfOk, Some, map};
ghost use Rattle.clap.specs.Words.{kind_of};
ghost use Rattle.ob_cli.specs.Jobs.{IsReason, IsReasonOf, job_of, status_of};

use crate::command::outagebook_command;
use crate::job::Job;
use crate::matched::matched_job;
use clap::Error;
use clap::error::ErrorKind;
use ob_base::Fault;
use std::alloc::{AllocError, Global};

/// Why the arguments name no job.
#[derive(Debug, Drop)]
pub enum WrongWords {
    /// Help was asked for, with this text. The exit status is 0.
    Help(String),
    /// The version was asked for, with this text. The exit status is 0.
    Version(String),
    /// The arguments were refused, with this reason. The exit status is 64.
    Wrong(String),
    /// An allocation failed. The exit status is 1.
    Fault(Fault),
}

impl WrongWords {
    /// The exit status: 0, 64 or 1.
    pub fn status(&self) -> u8
        ensures { result ≡ status_of self.now }
    {
        match self {
            WrongWords::Help(_) | WrongWords::Version(_) => 0,
            WrongWords::Wrong(_) => 64,
            WrongWords::Fault(_) => 1,
        }
    }
}

impl From<AllocError> for WrongWords {
    ghost use Rattle.ob_cli.specs.Jobs.{out_of_memory};

    ghost from_gives = { λ _ wrong. wrong ≡ out_of_memory };

    fn from(_error: AllocError) -> WrongWords {
        WrongWords::Fault(Fault::OutOfMemory)
    }
}

// The only words that `clap` matches and that name no job.
const UNNAMED: &str = "error: --by has to be one of: whole, feeder, month, day, cause, section\n";

fn reason_of(alloc: Global, error: &Error) -> WrongWords
    ensures { IsReasonOf (kind_of error.now) result }
{
    let kind = error.kind();
    if matches!(kind, ErrorKind::OutOfMemory) {
        return WrongWords::Fault(Fault::OutOfMemory);
    }
    match error.to_string(alloc) {
        Ok(text) if matches!(kind, ErrorKind::DisplayHelp) => WrongWords::Help(text),
        Ok(text) if matches!(kind, ErrorKind::DisplayVersion) => WrongWords::Version(text),
        Ok(text) => WrongWords::Wrong(text),
        Err(_) => WrongWords::Fault(Fault::OutOfMemory),
    }
}

/// Returns the job that the arguments name; the first argument is the program's name.
///
/// # Errors
///
/// `Help` and `Version` if the arguments ask for it, `Wrong` if they name no job, and `Fault` if an
/// allocation fails.
pub fn read_words(alloc: Global, words: &[&str]) -> Result<Job, WrongWords>
    ensures job { IfOk result (λ j. job_of (map (λ word. word.now) words.now) ≡ Some j) }
    ensures reason { IfErr result (λ e. IsReason (map (λ word. word.now) words.now) e) }
{
    let command = outagebook_command(alloc)?;
    let matches = match command.try_get_matches_from(words) {
        Ok(matches) => matches,
        Err(error) => return Err(reason_of(alloc, &error)),
    };
    match matched_job(alloc, &matches)? {
        Some(job) => Ok(job),
        None => Err(WrongWords::Wrong(String::from_str(alloc, UNNAMED)?)),
    }
}
