//! Reading commands from rows.
ghost use Rattle.std.specs.Prelude.{map};
ghost use Rattle.ob_command.specs.Fields.{IsRow, RowsSayOneThing};

use crate::Command;
use crate::fields::{Fields, read_fields};
use crate::kind::Kind;
use crate::spelling::Spelling;
use ob_base::{Ref, Refusal};

/// Reads the reference and the command of a row's eight fields: the kind, the reference and the
/// kind's fields. Fields that the kind doesn't use must be empty. The refusal is `BadField` with
/// the leftmost bad column, from 1 to 8.
pub fn read_row(row: &[&[u8]; 8]) -> Result<(Ref, Command), Refusal>
    ensures { IsRow (map (λ f. f.now) row.now) result }
{
    let [kind, reference, f1, f2, f3, f4, f5, f6] = *row;
    let kind = Kind::read(kind).ok_or(Refusal::BadField(1))?;
    let reference = Ref::read(reference).ok_or(Refusal::BadField(2))?;
    let fields = Fields {
        f1,
        f2,
        f3,
        f4,
        f5,
        f6,
    };
    Ok((reference, read_fields(Spelling::Free, kind, &fields)?))
}

/// States that a row has one meaning: a reference and a command, or a refusal of one column.
pub fn rows_law()
    ensures { RowsSayOneThing }
{}
