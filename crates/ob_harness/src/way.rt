//! The ways in which readers give their bytes and writers take them.
ghost use Rattle.std.specs.Prelude.{◌≡◌, IfOk};

use std::io::{Error, ErrorKind, Result};

/// How a reader gives its bytes, or a writer takes them: at most `step` bytes a call, each time
/// after `jolts` interrupted calls. After the last byte, or once there is no room left, each call
/// answers the error `end`, or 0 bytes if there is none.
#[derive(Clone, Copy)]
pub struct Way {
    pub step: usize,
    pub jolts: u32,
    pub end: Option<ErrorKind>,
}

impl Way {
    /// The answer after the last byte, or without room.
    pub fn ended(&self) -> Result<usize>
        ensures { IfOk result (λ n. n ≡ 0) }
    {
        match self.end {
            Some(kind) => Err(Error::from(kind)),
            None => Ok(0),
        }
    }
}

/// In one piece.
pub const WHOLE: Way = Way {
    step: 1_000_000,
    jolts: 0,
    end: None,
};

/// In one piece, and then a failure.
pub const FULL: Way = Way {
    step: 1_000_000,
    jolts: 0,
    end: Some(ErrorKind::Other),
};

/// One by one, each after an interrupted call.
pub const JOLTING: Way = Way {
    step: 1,
    jolts: 1,
    end: None,
};

/// One by one, each after an interrupted call, and then a failure.
pub const FAILING: Way = Way {
    step: 1,
    jolts: 1,
    end: Some(ErrorKind::Other),
};
