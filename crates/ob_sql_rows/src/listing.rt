//! The query that lists each table.
ghost use Rattle.std.specs.Prelude.{◌≡◌};
ghost use Rattle.ob_sql_rows.specs.Listings.{select_of};

use crate::table::Table;

/// The query of all rows of a table, in order of their keys.
pub fn select_of(table: Table) -> &'static str
    ensures { result.now ≡ select_of table }
{
    match table {
        Table::Meta => "SELECT id, version, day0, days, zone FROM meta ORDER BY id",
        Table::Cause => "SELECT code, name FROM cause ORDER BY code",
        Table::Node => "SELECT id, name, kind, feeder FROM node ORDER BY id",
        Table::Device => "SELECT id, name, a, b, normal FROM device ORDER BY id",
        Table::Life => "SELECT device, since, until FROM life ORDER BY device",
        Table::Customer => "SELECT id, section, since, until FROM customer ORDER BY id",
        Table::Entry => {
            "SELECT id, rev, device, pos, second, cause, crew, kept FROM entry ORDER BY id"
        }
        Table::Mark => "SELECT day, engineer FROM mark ORDER BY day",
        Table::Command => "SELECT id, ref, body FROM cmd ORDER BY id",
        Table::Moved => "SELECT cmd, dim, k, delta FROM moved ORDER BY cmd, dim, k",
        Table::Posting => "SELECT dim, k, amount FROM posting ORDER BY dim, k",
    }
}
