//! `Interruptions`: the count of the interrupted calls of a reader or writer.
ghost use Rattle.std.specs.Prelude.{◌≡◌, ◌↔◌, ◌+◌, true, false, Ok, IsErr, MatchResult};
ghost use Rattle.std.specs.IoError.{error_kind};
ghost use Rattle.ob_stream.specs.Watching.{IsInterruption};

use std::io;
use std::io::ErrorKind;

/// How many calls were interrupted, and whether the last one was.
#[derive(Drop)]
pub(crate) struct Interruptions {
    count: u64,
    last: bool,
}

impl Interruptions {
    /// No call was interrupted.
    pub(crate) fn none() -> Interruptions
        ensures count { result.count ≡ 0 }
        ensures last { result.last ≡ false }
    {
        Interruptions {
            count: 0,
            last: false,
        }
    }

    /// Counts an answer if it is that the call was interrupted, and passes it on. The count stays
    /// exact: once it is full, an interrupted call counts as one that failed otherwise.
    pub(crate) fn count<T>(&mut self, answer: io::Result<T>) -> io::Result<T>
        ensures answer { MatchResult answer (λ x. result ≡ Ok x) (λ _. IsErr result) }
        ensures last { (self.new.last ≡ true) ↔ IsInterruption result }
        ensures counted { self.new.last ≡ true → self.new.count ≡ self.old.count + 1 }
        ensures kept { self.new.last ≡ false → self.new.count ≡ self.old.count }
    {
        self.last = false;
        match answer {
            Ok(value) => Ok(value),
            Err(error) => Err(self.count_error(error)),
        }
    }

    // Counts an error if it is an interruption.
    fn count_error(&mut self, error: io::Error) -> io::Error
        requires { self.old.last ≡ false }
        ensures last { (self.new.last ≡ true) ↔ (error_kind result ≡ ErrorKind.Interrupted) }
        ensures counted { self.new.last ≡ true → self.new.count ≡ self.old.count + 1 }
        ensures kept { self.new.last ≡ false → self.new.count ≡ self.old.count }
    {
        if error.kind() != ErrorKind::Interrupted {
            return error;
        }
        if self.count == u64::MAX {
            return io::Error::from(ErrorKind::Other);
        }
        self.count += 1;
        self.last = true;
        error
    }
}
