//! The statements that create the tables.
ghost use Rattle.std.specs.Prelude.{◌≡◌, ◌<◌, ◌+◌};
ghost use Rattle.ob_sql_rows.specs.Creation.{before, create_text, LetsBook, LetsTable, MakesUpTo, MakesBook, Creates};
ghost use Rattle.ob_sql_rows.specs.Versions.{LetsLives, MakesLife};

use crate::run::run;
use crate::table::Table;
use ob_base::Stop;
use sqlite::{Alter, Transaction};

/// Creates the eleven tables, without rows. Fails if one of them exists already.
pub fn create_tables<S: Alter>(tx: &mut Transaction<'_, S>) -> Result<(), Stop>
    ensures { Creates S.Store tx.old.conn tx.new.conn result LetsBook MakesBook }
{
    'tables: for at in 0..11 {
        create_table(tx, table_after(at))?;
    }
    Ok(())
}

/// Adds the table of in-service intervals, without rows, to the tables of version 1. Fails if a
/// table with that name exists already.
pub fn create_life<S: Alter>(tx: &mut Transaction<'_, S>) -> Result<(), Stop>
    ensures { Creates S.Store tx.old.conn tx.new.conn result LetsLives MakesLife }
{
    run(tx, text_of(Table::Life), &[])
}

/// The table that is created when this many exist.
fn table_after(count: usize) -> Table
    requires { count < 11 }
    ensures { before result ≡ count }
{
    match count {
        0 => Table::Meta,
        1 => Table::Cause,
        2 => Table::Node,
        3 => Table::Device,
        4 => Table::Customer,
        5 => Table::Entry,
        6 => Table::Mark,
        7 => Table::Command,
        8 => Table::Moved,
        9 => Table::Posting,
        _ => Table::Life,
    }
}

/// Creates a table when those before it exist.
fn create_table<S: Alter>(tx: &mut Transaction<'_, S>, table: Table) -> Result<(), Stop>
    ensures { Creates S.Store tx.old.conn tx.new.conn result
        (LetsTable (before table)) (MakesUpTo (before table) (before table + 1)) }
{
    run(tx, text_of(table), &[])
}

/// The statement that creates a table.
fn text_of(table: Table) -> &'static str
    ensures { result.now ≡ create_text table }
{
    match table {
        Table::Meta =>
            "CREATE TABLE meta (id INTEGER PRIMARY KEY CHECK (id = 1), version INTEGER NOT NULL, \
             day0 TEXT NOT NULL, days INTEGER NOT NULL, zone TEXT NOT NULL) STRICT",
        Table::Cause =>
            "CREATE TABLE cause (code INTEGER PRIMARY KEY, name TEXT NOT NULL UNIQUE) STRICT",
        Table::Node => "CREATE TABLE node (id INTEGER PRIMARY KEY, name TEXT NOT NULL UNIQUE, \
             kind INTEGER NOT NULL, feeder INTEGER NOT NULL) STRICT",
        Table::Device => "CREATE TABLE device (id INTEGER PRIMARY KEY, name TEXT NOT NULL UNIQUE, \
             a INTEGER NOT NULL REFERENCES node (id), b INTEGER NOT NULL REFERENCES node (id), \
             normal INTEGER NOT NULL CHECK (normal >= 0 AND normal <= 1)) STRICT",
        Table::Life =>
            "CREATE TABLE life (device INTEGER PRIMARY KEY REFERENCES device (id), since INTEGER NOT \
             NULL, until INTEGER) STRICT",
        Table::Customer => "CREATE TABLE customer (id INTEGER PRIMARY KEY, \
             section INTEGER NOT NULL REFERENCES node (id), since INTEGER NOT NULL, \
             until INTEGER) STRICT",
        Table::Entry => "CREATE TABLE entry (id INTEGER PRIMARY KEY, rev INTEGER NOT NULL, \
             device INTEGER NOT NULL REFERENCES device (id), \
             pos INTEGER NOT NULL CHECK (pos >= 0 AND pos <= 1), second INTEGER NOT NULL, \
             cause INTEGER NOT NULL REFERENCES cause (code), crew TEXT NOT NULL, \
             kept INTEGER NOT NULL CHECK (kept >= 0 AND kept <= 1)) STRICT",
        Table::Mark => "CREATE TABLE mark (day INTEGER PRIMARY KEY, engineer TEXT NOT NULL) STRICT",
        Table::Command => "CREATE TABLE cmd (id INTEGER PRIMARY KEY, ref TEXT NOT NULL UNIQUE, \
             body TEXT NOT NULL) STRICT",
        Table::Moved =>
            "CREATE TABLE moved (cmd INTEGER NOT NULL REFERENCES cmd (id), dim INTEGER NOT NULL, \
             k INTEGER NOT NULL, delta INTEGER NOT NULL CHECK (delta <> 0), PRIMARY KEY (cmd, \
             dim, k)) STRICT",
        Table::Posting => "CREATE TABLE posting (dim INTEGER NOT NULL, k INTEGER NOT NULL, \
             amount INTEGER NOT NULL CHECK (amount >= 0), PRIMARY KEY (dim, k)) STRICT",
    }
}
