//! The totals as JSON: the customer-seconds without supply by cause, day and home feeder.
ghost use Rattle.std.specs.Prelude.{◌≡◌, [], ◌∷◌, ◌++◌, map, IfOk, IfErr, OnOk};
ghost use Rattle.std.specs.List.{filter};
ghost use Rattle.ob_base.specs.Stop.{out_of_memory};
ghost use Rattle.ob_post.specs.Postings.{amount_of, day_count, total_of};
ghost use Rattle.ob_post.specs.declared.Dim.TheVariants.{Day as Total};
ghost use Rattle.serde_json.specs.View.{view};
ghost use Rattle.ob_json.specs.Totals.{has_amount, row_data, rows_data, totals_data};
ghost use Rattle.ob_json.specs.Totals as definition;

use ob_base::Stop;
use ob_post::{Dim, Postings};
use serde_json::{Value, json};
use std::alloc::{AllocError, Global};

/// Returns the amount under each cause, day and home feeder that isn't 0, by rising keys, and the
/// total over the days: `{"cause":[[3,9000]],"day":[[0,9000]],"feeder":[[1,9000]],"total":9000}`.
/// Fails only if an allocation fails.
pub fn totals_text(alloc: Global, postings: &Postings, days: u16) -> Result<Vec<u8>, Stop>
    requires days { days ≡ day_count postings.now }
    ensures text { IfOk result (λ text. text.items
        ≡ definition.totals_text (amount_of postings.now) (day_count postings.now)
        (total_of postings.now Total)) }
    ensures err { IfErr result (λ stop. stop ≡ out_of_memory) }
{
    let totals = totals(alloc, postings, days)?;
    Ok(totals.to_vec(alloc)?)
}

// The totals as JSON.
fn totals(alloc: Global, postings: &Postings, days: u16) -> Result<Value, AllocError>
    requires days { days ≡ day_count postings.now }
    ensures data { IfOk result (λ v. view v ≡ totals_data (amount_of postings.now)
        (day_count postings.now) (total_of postings.now Total)) }
{
    json!(in alloc; {
        "cause": rows(alloc, postings, Dim::Cause, days)?,
        "day": rows(alloc, postings, Dim::Day, days)?,
        "feeder": rows(alloc, postings, Dim::Feeder, days)?,
        "total": postings.total(Dim::Day)
    })
}

// The rows of a dimension, without those whose amount is 0.
fn rows(alloc: Global, postings: &Postings, dim: Dim, days: u16) -> Result<Value, AllocError>
    requires days { days ≡ day_count postings.now }
    ensures data { IfOk result (λ v. view v ≡ rows_data (amount_of postings.now)
        (day_count postings.now) dim) }
{
    let mut rows = Vec::new(alloc);
    let keys = dim.keys(days);
    for key in keys.start..keys.end {
        push_row(alloc, &mut rows, key, postings.amount(dim, key))?;
    }
    Ok(Value::Array(rows))
}

// Appends the row of a key if its amount isn't 0.
fn push_row(alloc: Global, rows: &mut Vec<Value>, key: u16, amount: u64) -> Result<(), AllocError>
    ensures data { OnOk result (map view rows.new.items
        ≡ map view rows.old.items ++ map row_data (filter has_amount ((key, amount) ∷ []))) }
{
    if amount > 0 {
        rows.push(row(alloc, key, amount)?)?;
    }
    Ok(())
}

// The row of a key and its amount, as JSON.
fn row(alloc: Global, key: u16, amount: u64) -> Result<Value, AllocError>
    ensures { IfOk result (λ v. view v ≡ row_data (key, amount)) }
{
    json!(in alloc; [key, amount])
}
