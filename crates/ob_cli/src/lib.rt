//! The command line of the program `outagebook`, and its exit status.
//!
//! Defines the subcommands and their options, as `clap` reads them, the line printed for a refusal
//! or a fault, and the exit status. Promises that a job is returned only if `clap` matches the
//! arguments, that it is the job that they name, and that arguments that name a job are never
//! refused. No run that was refused or met a fault ends with the status of a job done. `ob_jobs`
//! and the program use this crate.
#![tactic(auto)]

mod command;
mod complaint;
mod job;
mod matched;
mod read;
mod status;

pub use complaint::complaint_of;
pub use job::{By, Job, Word};
pub use read::{WrongWords, read_words};
pub use status::{Unfinished, status_of_run};
