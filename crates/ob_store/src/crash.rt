//! Laws of what a keeper finds of a book after a crash of its store, and how often it searches.
ghost use Rattle.ob_store.specs.Crashing.{CrashLaw, LeftLaw, LoadLaw};
ghost use Rattle.ob_store.specs.OldCrashing.{OldCrashLaw};
ghost use Rattle.ob_store.specs.Searching.{LoadsAsReplayed, ReplayGrows};

use ob_book::searches_law;
use ob_record::naming_law;
use ob_sql_check::upgrade_law;
use sqlite::Alter;

/// States what a crash leaves of a store that keeps a book. When it is opened again it shows the
/// tables of a book, and a keeper loads that book. If the store kept either of two books, a keeper
/// loads one of them. Hidden row numbers that were consecutive before the crash stay so after
/// further crashes. Does nothing at run time.
pub fn crash_law<S: Alter, R: Alter>()
    ensures { CrashLaw S.Store R.Store }
{
    naming_law();
}

/// States the same of a book of version 1. After a crash the store shows the tables of that book,
/// and a keeper can migrate them to version 2. After a crash during a migration, either that holds
/// or a keeper loads the book in version 2. Does nothing at run time.
pub fn old_crash_law<S: Alter, R: Alter>()
    ensures { OldCrashLaw S.Store R.Store }
{
    naming_law();
    upgrade_law();
}

/// States that a keeper over a newly opened connection that shows the tables of a book loads that
/// book. It connects the contract on what a crash may leave with the next opening. Does nothing at
/// run time.
pub fn left_law<R: Alter>()
    ensures { LeftLaw R.Store }
{
    naming_law();
    upgrade_law();
}

/// States that loading from a store that keeps a book gives that book, also if a fault of the store
/// made the keeper drop it before. Loading fails only if an allocation fails or the store fails.
/// Does nothing at run time.
pub fn load_law<S: Alter>()
    ensures { LoadLaw S.Store }
{
    naming_law();
}

/// States that a load of a book that the store kept searches the network no more often than a replay
/// of the book's commands may, and that a command adds to that what `Keeper::act` may search for it.
/// So does each list of commands after a load, and then a load of the book that they lead to may
/// search as often as all of these calls. Does nothing at run time.
pub fn load_searches_law<S: Alter>()
    ensures grows { ReplayGrows }
    ensures loads { LoadsAsReplayed S.Store }
{
    naming_law();
    searches_law();
}
