//! The job that compares a book's tables with its commands.
ghost use Rattle.std.specs.Prelude.{◌≡◌, IfOk, string_bytes};
ghost use Rattle.ob_jobs.specs.After.{TellsAfter};
ghost use Rattle.ob_jobs.specs.Books.{AuditsBook};
ghost use Rattle.ob_jobs.specs.Lines.{audit_line};
ghost use Rattle.ob_jobs.specs.Loads.{AuditOf};

use crate::ending::end_of_audit;
use crate::tell::tell;
use ob_base::Stop;
use ob_cli::Unfinished;
use ob_sql_rows::Table;
use ob_store::{Alter, Keeper};
use ob_stream::Watched;
use ob_sweep::Timeline;
use std::alloc::{AllocError, Global};
use std::io::Write;

/// Compares the tables of a book with its commands, as [`run_audit`]. Ends as `Unfinished::Differs`
/// if a table differs.
pub fn audit_book<S: Alter, T: Timeline, W: Write>(
    alloc: Global,
    keeper: &mut Keeper<S, T>,
    writer: &mut Watched<W>,
) -> Result<(), Unfinished>
    ensures { AuditsBook W.contents keeper.old keeper.new writer.old writer.new result }
{
    end_of_audit(run_audit(alloc, keeper, writer))
}

/// Compares the tables with those of a book of their commands, as [`Keeper::audit`], and writes
/// `audit ok`, or `audit differs` and the name of the first table that differs, and LF. Returns
/// that table.
///
/// # Errors
///
/// Those of [`Keeper::audit`], and then nothing is written; `Fault::Output` if the writer fails.
pub fn run_audit<S: Alter, T: Timeline, W: Write>(
    alloc: Global,
    keeper: &mut Keeper<S, T>,
    writer: &mut Watched<W>,
) -> Result<Option<Table>, Stop>
    ensures { TellsAfter (AuditOf keeper.old keeper.new) audit_line W.contents writer.old writer.new
        result }
{
    let found = audit_tables(keeper)?;
    let line = line_of(alloc, found)?;
    tell(writer, line.as_bytes())?;
    Ok(found)
}

/// The comparison.
fn audit_tables<S: Alter, T: Timeline>(keeper: &mut Keeper<S, T>) -> Result<Option<Table>, Stop>
    ensures { AuditOf keeper.old keeper.new result }
{
    keeper.audit()
}

/// The line with the result.
fn line_of(alloc: Global, found: Option<Table>) -> Result<String, AllocError>
    ensures { IfOk result (λ line. string_bytes line ≡ audit_line found) }
{
    match found {
        None => String::from_str(alloc, "audit ok\n"),
        Some(table) => {
            let name = table.name();
            format!(in alloc; "audit differs {name}\n")
        }
    }
}
