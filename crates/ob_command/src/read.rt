//! Reading commands back from their body texts.
ghost use Rattle.std.specs.Prelude.{◌≡◌, ◌↔◌, Some};
ghost use Rattle.ob_command.specs.Commands.{body_text, BodiesDiffer, IsCommand};
ghost use Rattle.ob_command.specs.declared.command.Command.{Command as AnyCommand};

use crate::Command;
use crate::fields::read_fields;
use crate::kind::Kind;
use crate::spelling::Spelling;
use crate::split::split;

/// Reads a command from its body text; `None` for every text that isn't a command's body text.
pub fn read_body(text: &[u8]) -> Option<Command>
    ensures { (c : AnyCommand) → (result ≡ Some c) ↔ (IsCommand c × (text.now ≡ body_text c)) }
{
    let (kind, fields) = split(text)?;
    let kind = Kind::read(kind)?;
    match read_fields(Spelling::Body, kind, &fields) {
        Ok(command) => Some(command),
        Err(_) => None,
    }
}

/// States that two different commands have two different body texts.
pub fn bodies_law()
    ensures { BodiesDiffer }
{}
