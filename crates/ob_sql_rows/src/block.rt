//! The statement that adds several rows of moved amounts at once.
ghost use Rattle.std.specs.Prelude.{◌≡◌};
ghost use Rattle.sqlite.specs.Values.{bound};
ghost use Rattle.ob_sql_rows.specs.Steps.{Changes};
ghost use Rattle.ob_sql_rows.specs.Rows.{Always};
ghost use Rattle.ob_sql_rows.specs.Block.{block_params, with_moved_rows, LetsMovedRows};

use crate::run::{int, run_values, signed_value};
use ob_base::Stop;
use sqlite::{Alter, Transaction};
use sqlite_value::value::ValueRef;

/// An amount that a command changed: its dimension and key, and what the change adds to it.
#[derive(Clone, Copy)]
pub struct MovedAmount {
    pub dim: u32,
    pub key: u32,
    pub delta: i64,
}

/// Adds the rows of eight amounts that a command changed, in their order. Fails if one of them can't
/// be added after those before it: if the command has a row for its dimension and key by then, if
/// there is no such command, or if its `delta` is 0.
pub fn add_moved_block<S: Alter>(
    tx: &mut Transaction<'_, S>,
    no: u32,
    amounts: &[MovedAmount; 8],
) -> Result<(), Stop>
    ensures { Changes S.Store tx.old.conn tx.new.conn result Always
        (LetsMovedRows no amounts.now)
        (with_moved_rows no amounts.now) }
{
    run_values(
        tx,
        "INSERT INTO moved (cmd, dim, k, delta) VALUES (?1, ?2, ?3, ?4), (?1, ?5, ?6, ?7), (?1, ?8, ?9, ?10), (?1, ?11, ?12, ?13), (?1, ?14, ?15, ?16), (?1, ?17, ?18, ?19), (?1, ?20, ?21, ?22), (?1, ?23, ?24, ?25)",
        &block_values(no, amounts),
    )
}

/// The number of the command, and then what each row holds beside it.
fn block_values(no: u32, amounts: &[MovedAmount; 8]) -> [ValueRef<'static>; 25]
    ensures { bound result ≡ block_params no amounts.now }
{
    let [a, b, c, d, e, f, g, h] = *amounts;
    [
        int(no),
        int(a.dim),
        int(a.key),
        signed_value(a.delta),
        int(b.dim),
        int(b.key),
        signed_value(b.delta),
        int(c.dim),
        int(c.key),
        signed_value(c.delta),
        int(d.dim),
        int(d.key),
        signed_value(d.delta),
        int(e.dim),
        int(e.key),
        signed_value(e.delta),
        int(f.dim),
        int(f.key),
        signed_value(f.delta),
        int(g.dim),
        int(g.key),
        signed_value(g.delta),
        int(h.dim),
        int(h.key),
        signed_value(h.delta),
    ]
}
