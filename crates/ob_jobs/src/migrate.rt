//! The job that upgrades a book of version 1 to version 2.
ghost use Rattle.std.specs.Prelude.{◌≡◌};
ghost use Rattle.ob_jobs.specs.Books.{MigratesBook};
ghost use Rattle.ob_jobs.specs.Lines.{migrate_line};
ghost use Rattle.ob_jobs.specs.Migrations.{MigrationOf};
ghost use Rattle.ob_jobs.specs.Telling.{Tells};

use crate::ending::end_of_job;
use crate::tell::tell;
use ob_base::Stop;
use ob_cli::Unfinished;
use ob_store::{Alter, Keeper};
use ob_stream::Watched;
use ob_sweep::Timeline;
use std::io::Write;

/// Upgrades a book of version 1 to version 2, as [`run_migrate`].
pub fn migrate_book<S: Alter, T: Timeline, W: Write>(
    keeper: &mut Keeper<S, T>,
    writer: &mut Watched<W>,
) -> Result<(), Unfinished>
    ensures { MigratesBook W.contents keeper.old keeper.new writer.old writer.new result }
{
    end_of_job(run_migrate(keeper, writer))
}

/// Upgrades the tables of version 1 to version 2, as [`Keeper::migrate`], and writes `migrated`, or
/// `version 2` if they had that version already, and LF. Returns whether they were of version 1.
/// Loads no book.
///
/// # Errors
///
/// Those of [`Keeper::migrate`], and then nothing is written; `Fault::Output` if the writer fails,
/// and then the tables are of version 2.
pub fn run_migrate<S: Alter, T: Timeline, W: Write>(
    keeper: &mut Keeper<S, T>,
    writer: &mut Watched<W>,
) -> Result<bool, Stop>
    ensures { Tells (MigrationOf keeper.old keeper.new) migrate_line W.contents writer.old
        writer.new result }
{
    let migrated = migrate_tables(keeper)?;
    tell(writer, line_of(migrated))?;
    Ok(migrated)
}

/// The migration.
fn migrate_tables<S: Alter, T: Timeline>(keeper: &mut Keeper<S, T>) -> Result<bool, Stop>
    ensures { MigrationOf keeper.old keeper.new result }
{
    keeper.migrate()
}

/// The line that states whether the tables were of version 1.
fn line_of(migrated: bool) -> &'static [u8]
    ensures { result.now ≡ migrate_line migrated }
{
    if migrated {
        b"migrated\n".as_slice()
    } else {
        b"version 2\n".as_slice()
    }
}
