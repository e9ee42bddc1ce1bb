//! What interruption rows are handed to.
use crate::row::InterruptionRow;
use ob_base::Fault;

/// Receives interruption rows, one after another.
pub trait RowSink {
    ghost use Rattle.std.specs.Prelude.{⊤, Result};
    ghost use Rattle.ob_base.specs.declared.stop.Fault.{Fault as AFault};
    ghost use Rattle.ob_rows.specs.declared.row.InterruptionRow.{InterruptionRow as ARow};

    /// What a take changes in a sink, whether it fails or not.
    ghost takes: { Self → ARow → Result ⊤ AFault → Self → Type 0 };

    /// Takes a row.
    fn take(&mut self, row: &InterruptionRow) -> Result<(), Fault>
        ensures { takes self.old row.now result self.new };
}
