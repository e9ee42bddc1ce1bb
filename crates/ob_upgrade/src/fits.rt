//! Which commands version 1 could accept.
ghost use Rattle.std.specs.Prelude.{◌≡◌, ◌&&◌, is_none};
ghost use Rattle.ob_state.specs.State.{BookState};
ghost use Rattle.ob_state.specs.Refusals.{refusal};
ghost use Rattle.ob_upgrade.specs.Old.{fits_old, is_old, is_part, old_accepts};

use crate::laws::version_law;
use ob_command::Command;
use ob_sheet::Sheet;

/// Whether version 1 had this command, over this switching log. In version 1 a device was in
/// service from the first second on, without end, and no in-service interval could be set. Once the
/// log held an entry, kept or withdrawn, version 1 refused further buses, sections and devices. Of
/// the commands that it had, version 1 accepted those that are accepted today.
pub fn fits_version_one(sheet: &Sheet, command: &Command) -> bool
    ensures fits { result ≡ fits_old sheet.now.entries command.now }
    ensures accepted { (b : BookState) → b.entries ≡ sheet.now.entries
        → old_accepts b command.now ≡ (result && is_none (refusal b command.now)) }
{
    version_law();
    is_old(command) && !(is_part(command) && sheet.len() > 0)
}

// Whether it is a command of version 1.
pub(crate) fn is_old(command: &Command) -> bool
    ensures { result ≡ is_old command.now }
{
    match command {
        Command::Device(device) => device.is_plain(),
        Command::Life { .. } => false,
        _ => true,
    }
}

// Whether it adds a bus, a section or a device to the network.
fn is_part(command: &Command) -> bool
    ensures { result ≡ is_part command.now }
{
    matches!(
        command,
        Command::Bus { .. } | Command::Section { .. } | Command::Device(_)
    )
}
