//! The causes of the book, by code.
ghost use Rattle.std.specs.Prelude.{◌≡◌, codes};

use crate::MOST_CAUSES;
use ob_base::Name;
use std::marker::Model;

/// The names of the causes by code. Code 0 is the unassigned cause.
#[derive(Drop)]
pub struct Causes {
    names: [Option<Name>; MOST_CAUSES],
}

impl Model for Causes {
    ghost use Rattle.std.specs.Prelude.{◌≡◌, ℕ, List, Option, length};

    ghost Value = { List (Option (List ℕ)) };

    ghost view = { λ c. c.names };

    ghost invariant = { λ c. length c.names ≡ 64 };
}

impl Causes {
    ghost use Rattle.std.specs.Prelude.{◌≡◌, ◌<◌, Some, set};
    ghost use Rattle.ob_state.specs.State.{unassigned_alone, cause_name_of, has_cause_name};

    /// The causes of a new book: only cause 0.
    pub fn new() -> Causes
        ensures { result ≡ unassigned_alone }
    {
        let mut names = [None; MOST_CAUSES];
        names[0] = Some(unassigned());
        Causes { names }
    }

    /// The name of the cause with this code, if there is one.
    pub fn name(&self, code: u8) -> Option<Name>
        ensures { result ≡ cause_name_of self.now code }
    {
        match self.names.get(usize::from(code)) {
            Some(name) => *name,
            None => None,
        }
    }

    /// Whether a cause has this name.
    pub fn has_name(&self, name: &Name) -> bool
        ensures { result ≡ has_cause_name self.now name.now }
    {
        self.names.iter().any(|taken| match taken {
            Some(taken) => taken.bytes() == name.bytes(),
            None => false,
        })
    }

    /// Sets the name of the cause with this code, which is below 64.
    pub fn put(&mut self, code: u8, name: Name)
        requires { code < 64 }
        ensures { self.new ≡ set self.old code (Some name) }
    {
        self.names[usize::from(code)] = Some(name);
    }
}

/// The name of cause 0.
pub fn unassigned() -> Name
    ensures { result ≡ codes "UNASSIGNED" }
{
    match Name::read(b"UNASSIGNED") {
        Some(name) => name,
        // The bytes are a valid name: ten letters A-Z.
        None => unreachable!(),
    }
}
