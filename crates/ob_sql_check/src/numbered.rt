//! Tables whose rows are numbered from 0 on: nodes, devices and in-service intervals.
ghost use Rattle.std.specs.Prelude.{◌≡◌, ◌↔◌, ℕ, IsTrue};
ghost use Rattle.std.specs.List.Sorted.{IsStrictlySortedBy};
ghost use Rattle.ob_sql_rows.specs.declared.table.Table.{Table as ATable};
ghost use Rattle.ob_sql_rows.specs.declared.version.Version.{Version as AVersion};
ghost use Rattle.ob_sql_rows.specs.Rows.{Columns};
ghost use Rattle.ob_sql_rows.specs.Versions.{Has};
ghost use Rattle.ob_record.specs.Tables.{numbered};
ghost use Rattle.ob_sql_read.specs.Parts.{Compares, row_cmp};

use ob_base::Stop;
use ob_net::{Device, Node};
use ob_sql_read::{Listed, holds};
use ob_sql_rows::{Table, is_device_row, is_life_row, is_node_row};
use sqlite::{Alter, Connection, Row};

/// A table that has a row for each element of a list, by its number in the list.
pub(crate) trait Kind {
    /// The type of the elements.
    type Element;

    /// The table.
    ghost table: { ATable };

    /// The row of an element with this number.
    ghost row_of: { ℕ → Self.Element → Columns };

    /// The table.
    fn table() -> Table
        ensures { result ≡ table };

    /// Whether a row is that of an element with this number.
    fn is_row(row: &Row, number: u64, element: &Self::Element) -> bool
        ensures { IsTrue result ↔ (row.now ≡ row_of number element.now) };
}

/// The table of nodes.
pub(crate) struct Nodes;

impl Kind for Nodes {
    ghost use Rattle.ob_sql_rows.specs.declared.table.Table.{Table as ATable};
    ghost use Rattle.ob_sql_rows.specs.Rows.{node_row};

    type Element = Node;

    ghost table = { ATable.Node };

    ghost row_of = { node_row };

    fn table() -> Table {
        Table::Node
    }

    fn is_row(row: &Row, number: u64, node: &Node) -> bool {
        is_node_row(row, number, node)
    }
}

/// The table of devices.
pub(crate) struct Devices;

impl Kind for Devices {
    ghost use Rattle.ob_sql_rows.specs.declared.table.Table.{Table as ATable};
    ghost use Rattle.ob_sql_rows.specs.Rows.{device_row};

    type Element = Device;

    ghost table = { ATable.Device };

    ghost row_of = { device_row };

    fn table() -> Table {
        Table::Device
    }

    fn is_row(row: &Row, number: u64, device: &Device) -> bool {
        is_device_row(row, number, device)
    }
}

/// The table of the in-service intervals of devices.
pub(crate) struct Lives;

impl Kind for Lives {
    ghost use Rattle.ob_sql_rows.specs.declared.table.Table.{Table as ATable};
    ghost use Rattle.ob_record.specs.Tables.{row_of_life};

    type Element = Device;

    ghost table = { ATable.Life };

    ghost row_of = { row_of_life };

    fn table() -> Table {
        Table::Life
    }

    fn is_row(row: &Row, number: u64, device: &Device) -> bool {
        is_life_row(row, number, device.life)
    }
}

/// The elements of a list, by number.
#[derive(Drop)]
struct Numbered<'b, K: Kind> {
    elements: &'b [K::Element],
}

impl<'b, K: Kind> Listed for Numbered<'b, K> {
    ghost use Rattle.std.specs.Prelude.{map, Some};
    ghost use Rattle.ob_sql_check.specs.Parts.{placed};

    ghost table = { K.table };

    ghost places = { λ n. placed K.row_of 0 (map Some n.elements.now) };

    fn table(&self) -> Table {
        K::table()
    }

    fn count(&self) -> usize {
        self.elements.len()
    }

    fn has_row(&self, _at: usize) -> bool {
        true
    }

    fn is_row(&self, at: usize, row: &Row) -> bool {
        K::is_row(row, at as u64, &self.elements[at])
    }
}

/// Whether the table of a kind holds exactly the rows of these elements, by number. Nothing is
/// written.
pub(crate) fn holds_numbered<S: Alter, K: Kind>(
    conn: &mut Connection<S>,
    elements: &[K::Element],
) -> Result<bool, Stop>
    requires rises { IsStrictlySortedBy (row_cmp K.table) (numbered K.row_of 0 elements.now) }
    ensures { (v : AVersion) → Has v K.table
        → Compares S.Store v K.table (numbered K.row_of 0 elements.now) conn.old conn.new result }
{
    holds(conn, &Numbered::<K> { elements })
}
