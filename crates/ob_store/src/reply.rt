//! The reply to an accepted command.
ghost use Rattle.std.specs.Prelude.{◌≡◌, List, IfOk, IfErr};
ghost use Rattle.ob_post.specs.declared.Moved.{Moved as AMoved};

use ob_post::Moved;
use std::marker::Model;

/// The changes of amounts that a command made: by cause, feeder and day, and then by key.
#[derive(Drop)]
pub struct Moves {
    list: Vec<Moved>,
}

impl Model for Moves {
    ghost Value = { List AMoved };

    ghost view = { λ m. m.list.items };
}

impl Moves {
    /// Wraps a list of changes.
    pub(crate) fn new(list: Vec<Moved>) -> Moves
        ensures { result ≡ list.items }
    {
        Moves { list }
    }

    /// The changes in their order.
    pub fn as_slice(&self) -> &[Moved]
        ensures { result.now ≡ self.now }
    {
        &self.list
    }
}

/// The number of an accepted command, counted from 1, and the changes of amounts that it made.
#[derive(Drop)]
pub struct Reply {
    pub no: u32,
    pub moved: Moves,
}
