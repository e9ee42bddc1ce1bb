//! Laws of the rows of commands: that they determine the commands, and how many there are.
ghost use Rattle.ob_record.specs.Naming.{RowsNameCommands};
ghost use Rattle.ob_record.specs.Reached.{ReachedAreFew};

use ob_book::acts_law;
use ob_command::bodies_law;

/// States that the rows of commands determine the commands, and that a reached book has no more of
/// them than a book may accept. Does nothing at run time.
pub fn naming_law()
    ensures named { RowsNameCommands }
    ensures few { ReachedAreFew }
{
    acts_law();
    bodies_law();
}
