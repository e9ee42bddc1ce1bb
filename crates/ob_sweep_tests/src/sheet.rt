//! Switching logs made from the body texts of commands: switchings, corrections and withdrawals.
ghost use Rattle.std.specs.Prelude.{◌<◌, ◌≤◌, IfOk, OnOk, length};
ghost use Rattle.std.specs.List.{All};
ghost use Rattle.ob_sheet.specs.Sheet.{NameDevices};
ghost use Rattle.ob_time.specs.Calendar.{first_second_of, end_second_of};

use ob_command::{Command, read_body};
use ob_net::{Net, Second};
use ob_sheet::Sheet;
use ob_time::{CivilDays, Period};
use std::alloc::Global;
use std::test::Fail;

/// A period of this many days in UTC from the date of the first one.
pub fn period_of(alloc: Global, first: &[u8], days: u16) -> Result<Period, Fail> {
    Ok(Period::from_text(alloc, first, days, b"UTC0")?)
}

/// The switching log after the commands of a script's lines, one after another.
pub fn sheet_of(alloc: Global, net: &Net, period: &CivilDays, script: &str) -> Result<Sheet, Fail>
    ensures devices { IfOk result (λ s. NameDevices (length net.now.network.devices) s.entries) }
    ensures all { IfOk result (λ s. All (λ e. (first_second_of period.now ≤ e.second)
        × (e.second < end_second_of period.now)) s.entries) }
{
    let mut sheet = Sheet::new(alloc);
    for line in script.lines() {
        enter_line(&mut sheet, net, period, line)?;
    }
    Ok(sheet)
}

fn enter_line(sheet: &mut Sheet, net: &Net, period: &CivilDays, line: &str) -> Result<(), Fail>
    requires devices { NameDevices (length net.now.network.devices) sheet.old.entries }
    requires all { All (λ e. (first_second_of period.now ≤ e.second)
        × (e.second < end_second_of period.now)) sheet.old.entries }
    ensures devices { OnOk result (NameDevices (length net.now.network.devices) sheet.new.entries) }
    ensures all { OnOk result (All (λ e. (first_second_of period.now ≤ e.second)
        × (e.second < end_second_of period.now)) sheet.new.entries) }
{
    let command = read_body(line.as_bytes()).ok_or("a command")?;
    enter(sheet, net, period, &command)
}

/// Enters a switching, or corrects or withdraws an entry, as a command asks.
pub fn enter(
    sheet: &mut Sheet,
    net: &Net,
    period: &CivilDays,
    command: &Command,
) -> Result<(), Fail>
    requires devices { NameDevices (length net.now.network.devices) sheet.old.entries }
    requires all { All (λ e. (first_second_of period.now ≤ e.second)
        × (e.second < end_second_of period.now)) sheet.old.entries }
    ensures devices { OnOk result (NameDevices (length net.now.network.devices) sheet.new.entries) }
    ensures all { OnOk result (All (λ e. (first_second_of period.now ≤ e.second)
        × (e.second < end_second_of period.now)) sheet.new.entries) }
{
    match command {
        Command::Switch { device, operation } => {
            let device = net.device_of(device).ok_or("a device")?;
            let second = inside(period, operation.second.second())?;
            if sheet.is_full() {
                return Err("no entry".into());
            }
            sheet.reserve_one()?;
            sheet.enter(
                device,
                operation.act,
                second,
                operation.cause.get(),
                operation.crew,
            );
        }
        Command::Correct {
            entry,
            revision,
            operation,
        } => {
            let second = inside(period, operation.second.second())?;
            sheet.correct(
                entry.get(),
                revision.get(),
                operation.act,
                second,
                operation.cause.get(),
                operation.crew,
            )?;
        }
        Command::Withdraw { entry, revision } => sheet.withdraw(entry.get(), revision.get())?,
        _ => return Err("no change of the sheet".into()),
    }
    Ok(())
}

// A second of the period.
fn inside(period: &CivilDays, second: Second) -> Result<Second, Fail>
    ensures { IfOk result (λ s. (first_second_of period.now ≤ s) × (s < end_second_of period.now)) }
{
    if second < period.first_second() || period.end_second() <= second {
        return Err("a second outside".into());
    }
    Ok(second)
}
