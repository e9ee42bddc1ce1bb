//! How a job on a book ends, for the program's status.
ghost use Rattle.std.specs.Prelude.{◌≡◌};
ghost use Rattle.ob_jobs.specs.Endings.{audit_end, import_end, job_end};

use ob_base::Stop;
use ob_cli::Unfinished;
use ob_import::ImportReport;
use ob_sql_rows::Table;

/// The end of a job that was done, refused, or met a fault.
pub(crate) fn end_of_job<X: Copy>(job: Result<X, Stop>) -> Result<(), Unfinished>
    ensures { result ≡ job_end job }
{
    match job {
        Ok(_) => Ok(()),
        Err(stop) => Err(Unfinished::Stopped(stop, None)),
    }
}

/// The end of an import, which may have stopped at a row.
pub(crate) fn end_of_import(job: Result<ImportReport, Stop>) -> Result<(), Unfinished>
    ensures { result ≡ import_end job }
{
    match job {
        Ok(report) => match report.stopped {
            None => Ok(()),
            Some((row, refusal)) => Err(Unfinished::Stopped(Stop::Refused(refusal), Some(row))),
        },
        Err(stop) => Err(Unfinished::Stopped(stop, None)),
    }
}

/// The end of an audit, which has printed its result.
pub(crate) fn end_of_audit(job: Result<Option<Table>, Stop>) -> Result<(), Unfinished>
    ensures { result ≡ audit_end job }
{
    match job {
        Ok(None) => Ok(()),
        Ok(Some(_)) => Err(Unfinished::Differs),
        Err(stop) => Err(Unfinished::Stopped(stop, None)),
    }
}
