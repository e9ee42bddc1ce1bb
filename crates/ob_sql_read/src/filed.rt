//! A command under its reference.
use ob_base::Ref;
use ob_command::Command;

/// An accepted command under its reference.
#[derive(Clone, Copy)]
pub struct Filed {
    pub reference: Ref,
    pub command: Command,
}
