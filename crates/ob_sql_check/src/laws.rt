//! Laws that relate the tables of a book of version 1 to today's tables of the same book.
ghost use Rattle.ob_sql_check.specs.Laws.{HoldsOneOldBook, LetsUpgraded, OldIsReached, TablesAreAlike, Upgraded};

use ob_record::naming_law;
use ob_upgrade::version_law;

/// States how the tables of a book of version 1 relate to today's. Does nothing at run time.
///
/// A book of version 1 is one of today, with commands of version 1 and devices in service from the
/// first second on without end. Its ten tables have the rows of today's, except for the version,
/// the body texts of commands that add devices, and the in-service intervals. With today's body
/// texts and an in-service interval for each device they become today's, and the rules of today's
/// tables admit these rows. Trees that hold them hold those of no other book.
pub fn upgrade_law()
    ensures reached { OldIsReached }
    ensures alike { TablesAreAlike }
    ensures upgraded { Upgraded }
    ensures lets { LetsUpgraded }
    ensures one { HoldsOneOldBook }
{
    version_law();
    naming_law();
}
