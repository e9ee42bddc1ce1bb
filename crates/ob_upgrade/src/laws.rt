//! Laws that relate version 1 of the book to today's version.
ghost use Rattle.ob_upgrade.specs.Laws.{AcceptedButForParts, AcceptedByBoth, BodiesGrow, OldBodiesDiffer, ReachedByBoth, SameFigures};

use ob_command::bodies_law;

/// States how version 1 relates to today's version. Does nothing at run time.
///
/// If each device is in service from the first second on without end, the amounts and counts are
/// those of version 1.
///
/// A list of commands that version 1 accepted is accepted today. It gives the same book, in which
/// each device is in service so, and the same changes of amounts.
///
/// Version 1 accepted a command exactly if it is accepted today, is a command of version 1, and
/// doesn't add a part to a network whose switching log has an entry.
///
/// A book is one of version 1 exactly if it is one of today and version 1 accepted each of its
/// commands in its turn.
///
/// The body text of a command is that of version 1, for a device with `plain_end` added. Two
/// commands of version 1 with the same body text are the same command.
pub fn version_law()
    ensures figures { SameFigures }
    ensures accepted { AcceptedByBoth }
    ensures step { AcceptedButForParts }
    ensures reached { ReachedByBoth }
    ensures bodies { BodiesGrow }
    ensures differ { OldBodiesDiffer }
{
    bodies_law();
}
