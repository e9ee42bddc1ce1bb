//! What the program passes to a job: an input or an output that the job opens only when it needs
//! it, and a server that takes its port then.
use ob_base::Stop;
use ob_store::{Alter, Keeper};
use ob_sweep::Timeline;
use std::io::{Read, Write};

/// The input of an import, not opened yet.
pub trait OpenInput {
    ghost use Rattle.std.specs.Prelude.{Option};

    /// The type that is read.
    type Input: Read + Drop;

    /// What opening changes in it, whether it fails or not.
    ghost opens: { Self → Option Self.Input → Self → Type 0 };

    /// Opens the input; None if it can't be opened.
    fn open(&mut self) -> Option<Self::Input>
        ensures { opens self.old result self.new };
}

/// The output of a job, not created yet.
pub trait OpenOutput {
    ghost use Rattle.std.specs.Prelude.{Option};

    /// The type that is written to.
    type Output: Write + Drop;

    /// What creating changes in it, whether it fails or not.
    ghost opens: { Self → Option Self.Output → Self → Type 0 };

    /// Creates the output, or replaces it if it exists; None if it can't be created.
    fn open(&mut self) -> Option<Self::Output>
        ensures { opens self.old result self.new };
}

/// A server of a loaded book, which has not taken its port yet.
pub trait ServeBook {
    ghost use Rattle.std.specs.Prelude.{⊤, Result};
    ghost use Rattle.ob_base.specs.declared.stop.Stop.{Stop as AStop};
    ghost use Rattle.ob_store.specs.Keepers.{Ghosts};
    ghost use Rattle.ob_store.specs.declared.keeper.Keeper.{Keeper as AKeeper};

    /// The port, once it is taken.
    type Port: Drop;

    /// What taking the port changes in the server, whether it fails or not.
    ghost takes: { Self → Result Self.Port AStop → Self → Type 0 };

    /// What serving at a port changes in the server and in the keeper, whether it fails or not.
    ghost serves: { {S T : Type 0} {g : Ghosts S} → Self → Self.Port → AKeeper S T g → Result ⊤ AStop → AKeeper S T g → Self → Type 0 };

    /// Takes the port.
    fn take(&mut self) -> Result<Self::Port, Stop>
        ensures { takes self.old result self.new };

    /// Serves the book at the port.
    fn serve<S: Alter, T: Timeline>(
        &mut self,
        port: Self::Port,
        keeper: &mut Keeper<S, T>,
    ) -> Result<(), Stop>
        ensures { serves self.old port keeper.old result keeper.new self.new };
}
