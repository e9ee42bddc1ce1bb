//! The contents of the tables, found by queries.
use sqlite::{Alter, Connection};
use std::alloc::Global;
use std::process::Abort;

/// The tables of a book.
const TABLES: &'static [&'static str] = &[
    "meta", "cause", "node", "device", "life", "customer", "entry", "mark", "cmd", "moved",
    "posting",
];

/// Checks the numbers of rows in the tables, in this order.
pub fn has_rows<S: Alter>(
    rt: &impl Abort,
    alloc: Global,
    conn: &mut Connection<S>,
    wanted: &[i64],
) {
    for (table, rows) in TABLES.iter().zip(wanted) {
        assert!(rt; count(alloc, conn, table) == Some(*rows), "{table}");
    }
}

// The number of rows in a table.
fn count<S: Alter>(alloc: Global, conn: &mut Connection<S>, table: &str) -> Option<i64> {
    let Ok(sql) = format!(in alloc; "SELECT count(*) FROM {table}") else {
        return None;
    };
    match conn.query_row(&sql, &[]) {
        Ok(row) => row.get(0).ok(),
        Err(_) => None,
    }
}
