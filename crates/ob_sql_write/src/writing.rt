//! Creates the tables of a new book, with their first rows.
ghost use Rattle.ob_post.specs.Keys.{keys};
ghost use Rattle.ob_sql_rows.specs.Steps.{Changes};
ghost use Rattle.ob_sql_rows.specs.Creation.{Creates};
ghost use Rattle.ob_sql_rows.specs.Rows.{Always};
ghost use Rattle.ob_sql_write.specs.Amounts.{all_keys};
ghost use Rattle.ob_sql_write.specs.Keeps.{ChangesOpen};
ghost use Rattle.ob_sql_write.specs.NewBook.{LetsHeading, LetsNew, LetsZeros, new_tables, with_heading, with_zeros, keys_of, MakesNew};

use ob_base::Stop;
use ob_net::grid;
use ob_post::Dim;
use ob_sql_rows::{add_cause, add_meta, add_node, add_posting, create_tables};
use ob_state::unassigned;
use sqlite::{Alter, Transaction};

/// Creates the tables of a new book. Fails if one of them exists already.
pub(crate) fn write_new<S: Alter>(
    tx: &mut Transaction<'_, S>,
    first_day: &[u8],
    days: u16,
    zone: &[u8],
) -> Result<(), Stop>
    ensures { Creates S.Store tx.old.conn tx.new.conn result
        (LetsNew first_day.now zone.now) (MakesNew (new_tables first_day.now days zone.now)) }
{
    create_tables(tx)?;
    write_heading(tx, first_day, days, zone)?;
    write_amounts(tx, days)
}

/// Adds the row of the period, of cause 0 and of GRID.
fn write_heading<S: Alter>(
    tx: &mut Transaction<'_, S>,
    first_day: &[u8],
    days: u16,
    zone: &[u8],
) -> Result<(), Stop>
    ensures { Changes S.Store tx.old.conn tx.new.conn result Always
        (LetsHeading first_day.now zone.now) (with_heading first_day.now days zone.now) }
{
    add_meta(tx, first_day, u32::from(days), zone)?;
    add_cause(tx, 0, &unassigned())?;
    add_node(tx, 0, &grid())
}

/// Adds a row for each amount, with the value 0.
fn write_amounts<S: Alter>(tx: &mut Transaction<'_, S>, days: u16) -> Result<(), Stop>
    ensures { ChangesOpen S.Store tx.old.conn tx.new.conn result Always
        (LetsZeros (all_keys days)) (with_zeros (all_keys days)) }
{
    write_keys(tx, Dim::Cause, days)?;
    write_keys(tx, Dim::Feeder, days)?;
    write_keys(tx, Dim::Day, days)
}

/// Adds a row with the amount 0 for each key of a dimension.
fn write_keys<S: Alter>(tx: &mut Transaction<'_, S>, dim: Dim, days: u16) -> Result<(), Stop>
    ensures { ChangesOpen S.Store tx.old.conn tx.new.conn result Always
        (LetsZeros (keys_of dim (keys days dim))) (with_zeros (keys_of dim (keys days dim))) }
{
    let dim_no = u32::from(dim.number());
    let keys = dim.keys(days);
    for key in keys.start..keys.end {
        add_posting(tx, dim_no, u32::from(key))?;
    }
    Ok(())
}
