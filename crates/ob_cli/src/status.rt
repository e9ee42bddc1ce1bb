//! The exit status of a run.
ghost use Rattle.std.specs.Prelude.{◌≡◌};
ghost use Rattle.ob_cli.specs.Statuses.{run_status};

use crate::read::WrongWords;
use ob_base::Stop;

/// Why a run ends without its job done, or done with a finding.
#[derive(Drop)]
pub enum Unfinished {
    /// The arguments name no job.
    Words(WrongWords),
    /// The job was refused or met a fault, at this row if there is one.
    Stopped(Stop, Option<u32>),
    /// The tables of a book differ from its commands; the audit has printed this.
    Differs,
}

impl From<Stop> for Unfinished {
    ghost use Rattle.ob_cli.specs.Statuses.{stopped_by};

    ghost from_gives = { λ stop end. end ≡ stopped_by stop };

    fn from(stop: Stop) -> Unfinished {
        Unfinished::Stopped(stop, None)
    }
}

/// Returns the exit status after a run: 0 if the job was done, or help or the version was asked
/// for; 1 after a fault; 2 after a refusal or an audit that found a difference; 64 if the arguments
/// name no job.
pub fn status_of_run(run: &Result<(), Unfinished>) -> u8
    ensures { result ≡ run_status run.now }
{
    match run {
        Ok(()) => 0,
        Err(Unfinished::Words(wrong)) => wrong.status(),
        Err(Unfinished::Stopped(Stop::Refused(_), _)) => 2,
        Err(Unfinished::Stopped(Stop::Fault(_), _)) => 1,
        Err(Unfinished::Differs) => 2,
    }
}
