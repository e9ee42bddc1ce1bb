//! The program `outagebook`: it reads its arguments and does the job that they name.
//!
//! The exit status is 0 if the job was done, or help or the version was printed. It is 1 after a
//! fault, 2 after a refusal or an audit that found a difference, and 64 if the arguments name no
//! job. The jobs are public functions of `ob_jobs`, `ob_desk` and `ob_total` over readers and
//! writers, and their contracts define what they do. The contracts here state which job is done,
//! what is opened and closed around it, and what is printed at the end. No crate uses this one.
#![tactic(auto)]

mod books;
mod desk;
mod ending;
mod period;
mod port;
mod progress;
mod stack;
mod task;
mod total;
mod words;

use crate::books::run_on_book;
use crate::ending::tell_end;
use crate::stack::take_stack;
use crate::task::task_of;
use crate::total::print_total;
use crate::words::job_of;
use ob_base::{Fault, Stop};
pub use ob_cli::{Job, Unfinished, Word, WrongWords, complaint_of, read_words, status_of_run};
use ob_stream::Watched;
pub use ob_total::{TotalStop, run_total};
use std::io;
use std::process::ExitCode;

fn main(rt: HostRuntime) -> ExitCode {
    let rt = &rt;
    let run = match take_stack(rt.alloc()) {
        Ok(()) => do_words(rt),
        Err(_) => Err(Unfinished::from(Stop::Fault(Fault::OutOfMemory))),
    };
    let mut out = Watched::new(rt.stdout());
    let mut err = Watched::new(rt.stderr());
    ExitCode::from(tell_end(rt.alloc(), run, &mut out, &mut err))
}

/// Does the job that the arguments name.
fn do_words(rt: &HostRuntime) -> Result<(), Unfinished> {
    match job_of(rt) {
        Ok(job) => do_job(rt, &job),
        Err(wrong) => Err(Unfinished::Words(wrong)),
    }
}

/// Does a job on the files and the port that it names.
fn do_job(rt: &HostRuntime, job: &Job) -> Result<(), Unfinished> {
    match task_of(rt, job) {
        Some(found) => run_on_book(rt, found.book, found.task),
        None => {
            let mut reader = Watched::new(rt.reader());
            let mut writer = Watched::new(io::writer(rt));
            print_total(rt.alloc(), &mut reader, &mut writer)
        }
    }
}
