//! A plan as JSON: what a command would move, and the sections whose outage intervals it would
//! change.
ghost use Rattle.std.specs.Prelude.{◌≡◌, IfErr, IfOk, map, string_bytes};
ghost use Rattle.serde_json.specs.Data.{array};
ghost use Rattle.serde_json.specs.View.{items_of, view};
ghost use Rattle.ob_base.specs.Stop.{out_of_memory};
ghost use Rattle.ob_json.specs.Plans.{are_same_intervals, forecast_data, interval_data, intervals_data, number_or_null, section_data};
ghost use Rattle.ob_json.specs.Plans as definition;

use crate::moves::moves;
use ob_base::{Name, Second, Stop};
use ob_post::Moved;
use serde_json::{Value, json};
use std::alloc::{AllocError, Global};
use std::marker::Model;

/// An outage interval of a section, with the cause that its customer-seconds count under. `until`
/// is excluded.
#[derive(Clone, Copy, PartialEq, Eq)]
pub struct OutageInterval {
    /// The first second without supply.
    pub since: Second,
    /// The first second with supply after it, or the period's end.
    pub until: Second,
    /// The entry that cut the section off, if one did.
    pub entry: Option<u32>,
    /// The cause of that entry; 0 if there is none.
    pub cause: u8,
}

/// A section whose outage intervals a command would change, with all that it has before the
/// command and all after it, each list in rising order.
#[derive(Drop)]
pub struct SectionChange {
    section: Name,
    before: Vec<OutageInterval>,
    after: Vec<OutageInterval>,
}

impl Model for SectionChange {
    ghost use Rattle.ob_json.specs.Plans.{SectionOutages};

    ghost Value = { SectionOutages };

    ghost view = { λ c. record {
      section = c.section;
      before = c.before.items;
      after = c.after.items;
    } };
}

impl SectionChange {
    ghost use Rattle.std.specs.Prelude.{◌≡◌};

    /// A section of this name with these outage intervals before and after the command.
    pub fn new(
        section: Name,
        before: Vec<OutageInterval>,
        after: Vec<OutageInterval>,
    ) -> SectionChange
        ensures section { result.section ≡ section }
        ensures before { result.before ≡ before.items }
        ensures after { result.after ≡ after.items }
    {
        SectionChange {
            section,
            before,
            after,
        }
    }
}

/// Whether two lists have the same outage intervals, entries and causes included.
pub fn same_intervals(a: &[OutageInterval], b: &[OutageInterval]) -> bool
    ensures { result ≡ are_same_intervals a.now b.now }
{
    a == b
}

/// Returns what a command would do: the changes of amounts that it would make, and the sections
/// whose outage intervals it would change, as `{"moved":[["cause",3,9000],..],"sections":[{"after":
/// [[1704070800,1704074400,26,3]],"before":[],"section":"S1"},..]}`. Fails only if an allocation
/// fails.
pub fn forecast_text(
    alloc: Global,
    moved: &[Moved],
    sections: &[SectionChange],
) -> Result<Vec<u8>, Stop>
    ensures text { IfOk result (λ text. text.items
        ≡ definition.forecast_text (record { moved = moved.now; sections = sections.now })) }
    ensures err { IfErr result (λ stop. stop ≡ out_of_memory) }
{
    let forecast = forecast(alloc, moved, sections)?;
    Ok(forecast.to_vec(alloc)?)
}

fn forecast(alloc: Global, moved: &[Moved], sections: &[SectionChange]) -> Result<Value, AllocError>
    ensures { IfOk result (λ v. view v
        ≡ forecast_data (record { moved = moved.now; sections = sections.now })) }
{
    json!(in alloc; {
        "moved": moves(alloc, moved)?,
        "sections": section_values(alloc, sections)?
    })
}

fn section_values(alloc: Global, sections: &[SectionChange]) -> Result<Value, AllocError>
    ensures { IfOk result (λ v. view v ≡ array (items_of (map section_data sections.now))) }
{
    let mut values = Vec::new(alloc);
    for section in sections {
        values.push(section_value(alloc, section)?)?;
    }
    Ok(Value::Array(values))
}

fn section_value(alloc: Global, change: &SectionChange) -> Result<Value, AllocError>
    ensures { IfOk result (λ v. view v ≡ section_data change.now) }
{
    json!(in alloc; {
        "after": intervals(alloc, &change.after)?,
        "before": intervals(alloc, &change.before)?,
        "section": name(alloc, &change.section)?
    })
}

fn intervals(alloc: Global, list: &[OutageInterval]) -> Result<Value, AllocError>
    ensures { IfOk result (λ v. view v ≡ intervals_data list.now) }
{
    let mut values = Vec::new(alloc);
    for interval in list {
        values.push(one_interval(alloc, interval)?)?;
    }
    Ok(Value::Array(values))
}

fn one_interval(alloc: Global, interval: &OutageInterval) -> Result<Value, AllocError>
    ensures { IfOk result (λ v. view v ≡ interval_data interval.now) }
{
    json!(in alloc; [
        interval.since,
        interval.until,
        entry_or_null(alloc, interval.entry)?,
        interval.cause
    ])
}

pub fn entry_or_null(alloc: Global, entry: Option<u32>) -> Result<Value, AllocError>
    ensures { IfOk result (λ v. view v ≡ number_or_null entry) }
{
    match entry {
        Some(number) => json!(in alloc; number),
        None => Ok(Value::Null),
    }
}

#[tactic(auto, using(crate::proofs::Names::identifier_is_utf8))]
pub fn name(alloc: Global, name: &Name) -> Result<String, AllocError>
    ensures { IfOk result (λ s. string_bytes s ≡ name.now) }
{
    String::from_utf8_lossy(alloc, name.bytes())
}
