//! Today's body texts for the commands of a book of version 1.
ghost use Rattle.std.specs.Prelude.{◌≡◌, ◌++◌, ◌≤◌, length, IfOk, IfErr, OnOk};
ghost use Rattle.ob_base.specs.Stop.{out_of_memory};
ghost use Rattle.ob_sql_read.specs.Listing.{filed_of};
ghost use Rattle.ob_sql_check.specs.OldTables.{new_text, new_texts, texts_of};

use ob_base::Stop;
use ob_command::{Command, body_text};
use ob_sql_read::Filed;
use ob_sql_write::NewBody;
use std::alloc::Global;

/// Returns today's body texts of the commands that add devices, in order, under the numbers of the
/// commands, which count from 1. Other commands keep their texts. Fails only if an allocation
/// fails.
pub fn new_bodies(alloc: Global, commands: &[Filed]) -> Result<Vec<NewBody>, Stop>
    requires few { length commands.now ≤ 1_000_000 }
    ensures texts { IfOk result (λ bodies. texts_of bodies.items
        ≡ new_texts 1 (filed_of commands.now)) }
    ensures faults { IfErr result (λ stop. stop ≡ out_of_memory) }
{
    let mut bodies = Vec::new(alloc);
    'commands: for at in 0..commands.len() {
        add_body(alloc, &mut bodies, at as u32 + 1, &commands[at].command)?;
    }
    Ok(bodies)
}

// Appends the body text of a command under its number, if it adds a device.
fn add_body(
    alloc: Global,
    bodies: &mut Vec<NewBody>,
    no: u32,
    command: &Command,
) -> Result<(), Stop>
    ensures texts { OnOk result (texts_of bodies.new.items
        ≡ texts_of bodies.old.items ++ new_text no command.now) }
    ensures faults { IfErr result (λ stop. stop ≡ out_of_memory) }
{
    if matches!(command, Command::Device(_)) {
        let body = body_text(alloc, command)?;
        bodies.push(NewBody { no, body })?;
    }
    Ok(())
}
