//! The supply at a second as JSON: the sections without supply, and how the devices stand.
ghost use Rattle.std.specs.Prelude.{◌≡◌, IfErr, IfOk, map};
ghost use Rattle.serde_json.specs.Data.{array};
ghost use Rattle.serde_json.specs.View.{items_of, view};
ghost use Rattle.ob_base.specs.Stop.{out_of_memory};
ghost use Rattle.ob_json.specs.Supplies.{device_data, position_word, supply_data, unsupplied_data};
ghost use Rattle.ob_json.specs.Supplies as definition;

use crate::plan::{entry_or_null, name};
use ob_base::{Name, Pos, Second, Stop};
use serde_json::{Value, json};
use std::alloc::{AllocError, Global};

/// A section without supply at a second, with its outage interval then. `until` is excluded.
#[derive(Clone, Copy)]
pub struct UnsuppliedSection {
    /// The section's name.
    pub section: Name,
    /// The first second without supply.
    pub since: Second,
    /// The first second with supply after it, or the period's end.
    pub until: Second,
    /// The entry that cut the section off, if one did.
    pub entry: Option<u32>,
    /// The cause of that entry; 0 if there is none.
    pub cause: u8,
    /// How many customers of the section are in service at the second.
    pub customers: u64,
}

/// A device at a second.
#[derive(Clone, Copy)]
pub struct DeviceState {
    /// The device's name.
    pub device: Name,
    /// The position that the switching log gives it, in service or not.
    pub position: Pos,
    /// Whether it is in service.
    pub alive: bool,
}

/// Returns the supply at a second, as `{"devices":[{"alive":true,"device":"CB-1","position":
/// "closed"},..],"second":1704070800,"sections":[{"cause":3,"customers":5,"entry":26,"section":"S1",
/// "since":1704070800,"until":1704074400},..]}`. Fails only if an allocation fails.
pub fn supply_text(
    alloc: Global,
    second: Second,
    sections: &[UnsuppliedSection],
    devices: &[DeviceState],
) -> Result<Vec<u8>, Stop>
    ensures text { IfOk result (λ text. text.items ≡ definition.supply_text (record {
      second = second;
      sections = sections.now;
      devices = devices.now;
    })) }
    ensures err { IfErr result (λ stop. stop ≡ out_of_memory) }
{
    let supply = supply(alloc, second, sections, devices)?;
    Ok(supply.to_vec(alloc)?)
}

fn supply(
    alloc: Global,
    second: Second,
    sections: &[UnsuppliedSection],
    devices: &[DeviceState],
) -> Result<Value, AllocError>
    ensures { IfOk result (λ v. view v ≡ supply_data (record {
      second = second;
      sections = sections.now;
      devices = devices.now;
    })) }
{
    json!(in alloc; {
        "devices": device_values(alloc, devices)?,
        "second": second,
        "sections": section_values(alloc, sections)?
    })
}

fn device_values(alloc: Global, devices: &[DeviceState]) -> Result<Value, AllocError>
    ensures { IfOk result (λ v. view v ≡ array (items_of (map device_data devices.now))) }
{
    let mut values = Vec::new(alloc);
    for device in devices {
        values.push(device_value(alloc, device)?)?;
    }
    Ok(Value::Array(values))
}

fn device_value(alloc: Global, state: &DeviceState) -> Result<Value, AllocError>
    ensures { IfOk result (λ v. view v ≡ device_data state.now) }
{
    json!(in alloc; {
        "alive": state.alive,
        "device": name(alloc, &state.device)?,
        "position": word_of(state.position)
    })
}

fn word_of(position: Pos) -> &'static str
    ensures { result.now ≡ position_word position }
{
    match position {
        Pos::Opened => "open",
        Pos::Closed => "closed",
    }
}

fn section_values(alloc: Global, sections: &[UnsuppliedSection]) -> Result<Value, AllocError>
    ensures { IfOk result (λ v. view v ≡ array (items_of (map unsupplied_data sections.now))) }
{
    let mut values = Vec::new(alloc);
    for section in sections {
        values.push(section_value(alloc, section)?)?;
    }
    Ok(Value::Array(values))
}

fn section_value(alloc: Global, outage: &UnsuppliedSection) -> Result<Value, AllocError>
    ensures { IfOk result (λ v. view v ≡ unsupplied_data outage.now) }
{
    json!(in alloc; {
        "cause": outage.cause,
        "customers": outage.customers,
        "entry": entry_or_null(alloc, outage.entry)?,
        "section": name(alloc, &outage.section)?,
        "since": outage.since,
        "until": outage.until
    })
}
