//! Reads the body texts of version 1. There, the text of a device ends with its normal position.
ghost use Rattle.std.specs.Prelude.{◌≡◌, ◌↔◌, Some, true, take, IfOk, IfErr};
ghost use Rattle.ob_base.specs.Stop.{out_of_memory};
ghost use Rattle.ob_command.specs.Commands.{IsCommand};
ghost use Rattle.ob_command.specs.declared.command.Command.{Command as AnyCommand};
ghost use Rattle.ob_upgrade.specs.Old.{is_device, is_old, old_body_text};
ghost use Rattle.ob_upgrade.specs.Reading.{is_of_device, is_old_device, is_old_other, kept_if};

use crate::fits::is_old;
use ob_base::Stop;
use ob_command::{Command, plain_end, read_body};
use std::alloc::Global;

/// Reads a body text of version 1. The text of a device is today's without `plain_end`; it gives a
/// device that is in service from the first second on, without end. None for every text that isn't
/// the body text of a command of version 1. Fails only if an allocation fails.
pub fn read_old_body(alloc: Global, text: &[u8]) -> Result<Option<Command>, Stop>
    ensures read { IfOk result (λ found. (c : AnyCommand)
        → (found ≡ Some c) ↔ (IsCommand c × (is_old c ≡ true) × (text.now ≡ old_body_text c))) }
    ensures err { IfErr result (λ stop. stop ≡ out_of_memory) }
{
    if is_of_device(text) {
        return read_old_device(alloc, text);
    }
    Ok(other_alone(read_body(text)))
}

fn read_old_device(alloc: Global, text: &[u8]) -> Result<Option<Command>, Stop>
    requires { is_of_device text.now ≡ true }
    ensures read { IfOk result (λ found. (c : AnyCommand)
        → (found ≡ Some c) ↔ (IsCommand c × (is_old c ≡ true) × (text.now ≡ old_body_text c))) }
    ensures err { IfErr result (λ stop. stop ≡ out_of_memory) }
{
    let mut whole = Vec::from_slice(alloc, text)?;
    whole.extend_from_slice(plain_end())?;
    Ok(device_alone(read_body(&whole)))
}

// The command, if it adds a device and is one of version 1.
fn device_alone(found: Option<Command>) -> Option<Command>
    ensures { result ≡ kept_if is_old_device found }
{
    let command = found?;
    if is_device(&command) && is_old(&command) {
        Some(command)
    } else {
        None
    }
}

// The command, if it is any other command of version 1.
fn other_alone(found: Option<Command>) -> Option<Command>
    ensures { result ≡ kept_if is_old_other found }
{
    let command = found?;
    if !is_device(&command) && is_old(&command) {
        Some(command)
    } else {
        None
    }
}

fn is_device(command: &Command) -> bool
    ensures { result ≡ is_device command.now }
{
    matches!(command, Command::Device(_))
}

fn is_of_device(text: &[u8]) -> bool
    ensures { result ≡ is_of_device text.now }
{
    front(text) == b"device ".as_slice()
}

// The first seven bytes, or all if there are fewer.
fn front(text: &[u8]) -> &[u8]
    ensures { result.now ≡ take 7 text.now }
{
    if text.len() < 7 {
        return text;
    }
    &text[..7]
}
