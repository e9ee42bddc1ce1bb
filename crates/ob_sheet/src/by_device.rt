//! The kept entries' numbers by device: searches in that list, and the positions that entries
//! leave.
ghost use Rattle.std.specs.Prelude.{◌≡◌, ◌==◌, ◌<◌, ◌≤◌, None, Some, IfErr, IfOk, drop, length, not, slice_get, take};
ghost use Rattle.std.specs.List.{All, filter, last_or, prefix_len};
ghost use Rattle.ob_base.specs.Stop.{out_of_memory};
ghost use Rattle.ob_sheet.specs.declared.Entry.{Entry as EntryOf};
ghost use Rattle.ob_sheet.specs.ByDevice.{IsByDevice, device_of, is_until_by_device};
ghost use Rattle.ob_sheet.specs.Order.{in_order, is_before};
ghost use Rattle.ob_sheet.specs.Positions.{entered};
ghost use Rattle.ob_sheet.specs.Sheet.{AreNumbered};

use crate::Entry;
use crate::sheet::is_after;
use ob_base::{Pos, Second, Stop};
use ob_net::{MOST_DEVICES, Net};
use std::alloc::Global;

/// A bound in the list by device: the entries of lower devices, and those of `device` up to and
/// including an entry with this second and this number.
#[derive(Clone, Copy)]
pub(crate) struct Until {
    pub device: u16,
    pub second: Second,
    pub no: u32,
}

/// How many numbers of the list by device are within the bound. The first `from` are known to be.
///
/// The search doubles its steps, so its work grows with the logarithm of how many numbers come
/// after `from`.
pub(crate) fn place_by_device(
    entries: &[Entry],
    by_device: &[u32],
    from: usize,
    until: Until,
) -> usize
    requires numbered { AreNumbered entries.now }
    requires by_device { IsByDevice entries.now by_device.now }
    requires from { from ≤ prefix_len (is_until_by_device entries.now until.device until.second
        until.«no») by_device.now }
    ensures place { result ≡ prefix_len (is_until_by_device entries.now until.device until.second
        until.«no») by_device.now }
{
    let mut low = from;
    let mut step = 1;
    while step <= by_device.len() - low {
        let last = low + step - 1;
        if !is_number_until(entries, by_device[last], until) {
            return place_between(entries, by_device, low, last, until);
        }
        low += step;
        step *= 2;
    }
    place_between(entries, by_device, low, by_device.len(), until)
}

/// The same, where the answer is thought to be `gap` more than `from`. It is found at once if it is.
fn place_near(entries: &[Entry], by_device: &[u32], from: usize, gap: usize, until: Until) -> usize
    requires numbered { AreNumbered entries.now }
    requires by_device { IsByDevice entries.now by_device.now }
    requires from { from ≤ prefix_len (is_until_by_device entries.now until.device until.second
        until.«no») by_device.now }
    ensures place { result ≡ prefix_len (is_until_by_device entries.now until.device until.second
        until.«no») by_device.now }
{
    if gap == 0 || by_device.len() - from < gap {
        return place_by_device(entries, by_device, from, until);
    }
    let last = from + gap - 1;
    if is_number_until(entries, by_device[last], until) {
        return place_by_device(entries, by_device, last + 1, until);
    }
    place_between(entries, by_device, from, last, until)
}

/// How many numbers of the list by device are within the bound, at least `from` and at most `to`.
fn place_between(
    entries: &[Entry],
    by_device: &[u32],
    from: usize,
    to: usize,
    until: Until,
) -> usize
    requires numbered { AreNumbered entries.now }
    requires by_device { IsByDevice entries.now by_device.now }
    requires from { from ≤ prefix_len (is_until_by_device entries.now until.device until.second
        until.«no») by_device.now }
    requires to { prefix_len (is_until_by_device entries.now until.device until.second until.«no»)
        by_device.now ≤ to }
    requires within { to ≤ length by_device.now }
    ensures place { result ≡ prefix_len (is_until_by_device entries.now until.device until.second
        until.«no») by_device.now }
{
    let mut low = from;
    let mut high = to;
    while low < high {
        let middle = low + (high - low) / 2;
        if is_number_until(entries, by_device[middle], until) {
            low = middle + 1;
        } else {
            high = middle;
        }
    }
    low
}

/// Whether the entry with a number is within the bound.
fn is_number_until(entries: &[Entry], number: u32, until: Until) -> bool
    requires numbered { AreNumbered entries.now }
    requires some { 1 ≤ number }
    requires within { number ≤ length entries.now }
    ensures { result ≡ is_until_by_device entries.now until.device until.second until.«no» number }
{
    let entry = entries[number as usize - 1];
    entry.device < until.device
        || entry.device == until.device && !is_after(entry, until.second, until.no)
}

/// The last number of a device before a place of the list by device. No number before the place
/// belongs to a later device.
pub(crate) fn last_before(
    entries: &[Entry],
    by_device: &[u32],
    place: usize,
    device: u16,
) -> Option<u32>
    requires numbered { AreNumbered entries.now }
    requires by_device { IsByDevice entries.now by_device.now }
    requires within { place ≤ length by_device.now }
    requires before { All (λ number. device_of entries.now number ≤ device)
        (take place by_device.now) }
    ensures last { result ≡ last_or None (filter (λ number. device_of entries.now number == device)
        (take place by_device.now)) }
{
    let number = by_device[place.checked_sub(1)?];
    (entries[number as usize - 1].device == device).then_some(number)
}

/// The first number of a device at a place of the list by device or after it. No number there
/// belongs to an earlier device.
pub(crate) fn first_from(
    entries: &[Entry],
    by_device: &[u32],
    place: usize,
    device: u16,
) -> Option<u32>
    requires numbered { AreNumbered entries.now }
    requires by_device { IsByDevice entries.now by_device.now }
    requires behind { All (λ number. device ≤ device_of entries.now number)
        (drop place by_device.now) }
    ensures first { result ≡ slice_get (filter (λ number. device_of entries.now number == device)
        (drop place by_device.now)) 0 }
{
    let number = *by_device.get(place)?;
    (entries[number as usize - 1].device == device).then_some(number)
}

/// The positions of the devices after the entries in order, up to a second and a number. Any `gaps`
/// will do: those that `gaps_at` gave for a moment nearby make it fast.
pub(crate) fn positions_until(
    alloc: Global,
    entries: &[Entry],
    by_device: &[u32],
    gaps: &[usize],
    second: Second,
    no: u32,
    net: &Net,
) -> Result<Vec<Pos>, Stop>
    requires numbered { AreNumbered entries.now }
    requires by_device { IsByDevice entries.now by_device.now }
    ensures positions { (e : EntryOf) → e.second ≡ second → e.«no» ≡ «no»
        → IfOk result (λ p. p.items ≡ entered net.now.network
        (take (prefix_len (λ f. not (is_before e f)) (in_order entries.now))
        (in_order entries.now))) }
    ensures err { IfErr result (λ stop. stop ≡ out_of_memory) }
{
    let mut positions = Vec::with_capacity(alloc, usize::from(net.devices()))?;
    let mut place = 0;
    for device in 0..net.devices() {
        let until = Until { device, second, no };
        place = place_near(entries, by_device, place, gap_of(gaps, device), until);
        positions.push(position_until(entries, by_device, place, until, net))?;
    }
    Ok(positions)
}

/// How far each device's place in the list by device lies behind that of the device before it: the
/// places up to a second and a number. Earlier gaps make it fast.
pub(crate) fn gaps_at(
    alloc: Global,
    entries: &[Entry],
    by_device: &[u32],
    gaps: &[usize],
    second: Second,
    no: u32,
) -> Result<Vec<usize>, Stop>
    requires numbered { AreNumbered entries.now }
    requires by_device { IsByDevice entries.now by_device.now }
    ensures err { IfErr result (λ stop. stop ≡ out_of_memory) }
{
    let mut found = Vec::with_capacity(alloc, MOST_DEVICES)?;
    let mut from = 0;
    for device in 0..MOST_DEVICES as u16 {
        let until = Until { device, second, no };
        let place = place_near(entries, by_device, from, gap_of(gaps, device), until);
        found.push(place - from)?;
        from = place;
    }
    Ok(found)
}

/// The gap noted for a device; 0 if there is none.
fn gap_of(gaps: &[usize], device: u16) -> usize {
    match gaps.get(usize::from(device)) {
        Some(gap) => *gap,
        None => 0,
    }
}

/// The position of a device after the entries in order up to a second and a number, found by their
/// place in the list by device.
fn position_until(
    entries: &[Entry],
    by_device: &[u32],
    place: usize,
    until: Until,
    net: &Net,
) -> Pos
    requires numbered { AreNumbered entries.now }
    requires by_device { IsByDevice entries.now by_device.now }
    requires place { place ≡ prefix_len (is_until_by_device entries.now until.device until.second
        until.«no») by_device.now }
    requires device { until.device < length net.now.network.devices }
    ensures position { (e : EntryOf) → e.second ≡ until.second → e.«no» ≡ until.«no»
        → slice_get (entered net.now.network (take
        (prefix_len (λ f. not (is_before e f)) (in_order entries.now)) (in_order entries.now)))
        until.device ≡ Some result }
{
    match last_before(entries, by_device, place, until.device) {
        Some(number) => entries[number as usize - 1].pos,
        None => net.normal(until.device),
    }
}
