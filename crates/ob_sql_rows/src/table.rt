//! The eleven tables.

/// A table of a book. The tables are created in this order, except `Life`, which is created last.
#[derive(Clone, Copy)]
pub enum Table {
    /// The version of the tables, the first day, the count of days and the zone: one row.
    Meta,
    /// The causes, by code.
    Cause,
    /// The nodes, by number.
    Node,
    /// The switching devices, by number.
    Device,
    /// The in-service intervals of the devices, by device number.
    Life,
    /// The customers and their services, by customer number.
    Customer,
    /// The entries of the switching log, by number.
    Entry,
    /// The marked days.
    Mark,
    /// The accepted commands, by number.
    Command,
    /// The amounts that commands changed, by command, dimension and key.
    Moved,
    /// The amounts, by dimension and key.
    Posting,
}

impl Table {
    ghost use Rattle.std.specs.Prelude.{◌≡◌};
    ghost use Rattle.ob_sql_rows.specs.Rows.{table_name};

    /// The name of the table.
    pub fn name(self) -> &'static str
        ensures { result.now ≡ table_name self }
    {
        match self {
            Table::Meta => "meta",
            Table::Cause => "cause",
            Table::Node => "node",
            Table::Device => "device",
            Table::Life => "life",
            Table::Customer => "customer",
            Table::Entry => "entry",
            Table::Mark => "mark",
            Table::Command => "cmd",
            Table::Moved => "moved",
            Table::Posting => "posting",
        }
    }
}
