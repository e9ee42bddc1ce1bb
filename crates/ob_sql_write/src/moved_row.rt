//! Reads a row of the table of moved amounts.
ghost use Rattle.std.specs.Prelude.{◌≡◌, ◌<◌, ◌^◌, ℕ, IfSome, Some};
ghost use Rattle.ob_post.specs.Keys.{dim_number};
ghost use Rattle.ob_post.specs.declared.Dim.{Dim as ADim};
ghost use Rattle.ob_post.specs.declared.Moved.{Moved as AMoved};
ghost use Rattle.ob_sql_write.specs.Stored.{row_of};

use crate::columns::{number_at, signed_at};
use ob_post::{Dim, Moved};
use sqlite::Row;

/// Reads a row of the table of moved amounts: the number of a command and one change that it made.
/// None if no command and change have this row.
pub fn read_moved(row: &Row) -> Option<(u32, Moved)>
    ensures told { IfSome result (λ it. row.now ≡ row_of it.0 it.1) }
    ensures readable { (no : ℕ) (change : AMoved) → no < 2 ^ 32 → change.key < 2 ^ 16
        → row.now ≡ row_of no change → result ≡ Some (no, change) }
{
    if row.column_count() != 4 {
        return None;
    }
    let no = number_at(row, 0).ok()?;
    let dim = dim_of(number_at(row, 1).ok()?)?;
    let key = u16::try_from(number_at(row, 2).ok()?).ok()?;
    let delta = signed_at(row, 3).ok()?;
    Some((no, Moved { dim, key, delta }))
}

/// Returns the dimension of a number.
fn dim_of(number: u32) -> Option<Dim>
    ensures told { IfSome result (λ dim. number ≡ dim_number dim) }
    ensures readable { (dim : ADim) → number ≡ dim_number dim → result ≡ Some dim }
{
    match number {
        1 => Some(Dim::Cause),
        2 => Some(Dim::Feeder),
        3 => Some(Dim::Day),
        _ => None,
    }
}
