//! The contents of the tables, row by row.
use sqlite::{Alter, Connection, Error, Row};
use std::alloc::AllocError;

/// The rows of each table by its key, with one space between the columns; the ten tables of both
/// versions come first.
pub const ROWS: &'static [&'static str] = &[
    "SELECT id || ' ' || version || ' ' || day0 || ' ' || days || ' ' || zone FROM meta",
    "SELECT code || ' ' || name FROM cause ORDER BY code",
    "SELECT id || ' ' || name || ' ' || kind || ' ' || feeder FROM node ORDER BY id",
    "SELECT id || ' ' || name || ' ' || a || ' ' || b || ' ' || normal FROM device ORDER BY id",
    "SELECT id || ' ' || section || ' ' || since || ' ' || coalesce(until, '-') FROM customer \
     ORDER BY id",
    "SELECT id || ' ' || rev || ' ' || device || ' ' || pos || ' ' || second || ' ' || cause || ' ' \
     || crew || ' ' || kept FROM entry ORDER BY id",
    "SELECT day || ' ' || engineer FROM mark ORDER BY day",
    "SELECT id || ' ' || ref || ' ' || body FROM cmd ORDER BY id",
    "SELECT cmd || ' ' || dim || ' ' || k || CASE WHEN delta < 0 THEN ' - ' ELSE ' + ' END \
     || abs(delta) FROM moved ORDER BY cmd, dim, k",
    "SELECT dim || ' ' || k || ' ' || amount FROM posting ORDER BY dim, k",
    "SELECT device || ' ' || since || ' ' || coalesce(until, '-') FROM life ORDER BY device",
];

/// Appends the rows that a query finds to others. For a missing table, that is written in place of
/// its rows.
pub fn put_rows<S: Alter>(
    conn: &mut Connection<S>,
    sql: &str,
    text: &mut Vec<u8>,
) -> Result<(), AllocError> {
    let Ok(rows) = conn.query_all(sql, &[]) else {
        return text.extend_from_slice(b"no such table\n");
    };
    text.extend_from_slice(b"table\n")?;
    for row in rows.iter() {
        put_line(row, text)?;
    }
    Ok(())
}

// Appends a row of one column to others.
fn put_line(row: &Row, text: &mut Vec<u8>) -> Result<(), AllocError> {
    let found: Result<String, Error> = row.get(0);
    match found {
        Ok(found) => text.extend_from_slice(found.as_bytes())?,
        Err(_) => text.extend_from_slice(b"no text")?,
    }
    text.push(b'\n')?;
    Ok(())
}
