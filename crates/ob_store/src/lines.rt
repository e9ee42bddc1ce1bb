//! What gives the lines of a list, one after another.
use ob_base::{Fault, Ref, Refusal};
use ob_book::Command;

/// Gives the lines of a list, one after another, so that none but the next is held.
pub trait Lines {
    ghost use Rattle.std.specs.Prelude.{◌≡◌, Option, Result, IfErr};
    ghost use Rattle.ob_base.specs.declared.stop.Fault.{Fault as AFault};
    ghost use Rattle.ob_store.specs.Whole.{Line};

    /// What taking a line changes, whether there is one, none is left or it fails.
    ghost gives: { Self → Result (Option Line) AFault → Self → Type 0 };

    /// Takes the next line: a command under its reference, or the refusal of a line that says none.
    /// None if no line is left. `Fault::OutOfMemory` if an allocation failed.
    fn next(&mut self) -> Result<Option<Result<(Ref, Command), Refusal>>, Fault>
        ensures given { gives self.old result self.new }
        ensures memory { IfErr result (λ fault. fault ≡ AFault.OutOfMemory) };
}
