//! The faults that ended streams of a listener.
use ob_base::Fault;
use ob_desk::FaultLog;

/// The last recorded fault, and the number of recorded faults.
#[derive(Drop)]
pub struct Log {
    last: Option<Fault>,
    count: u32,
}

impl Log {
    pub fn new() -> Log {
        Log {
            last: None,
            count: 0,
        }
    }

    /// Answers whether this number of faults was recorded, this one last.
    pub fn is(&self, count: u32, last: Option<Fault>) -> bool {
        self.count == count && self.last == last
    }
}

impl FaultLog for Log {
    ghost use Rattle.std.specs.Prelude.{⊤};

    ghost tells = { λ _ _ _. ⊤ };

    fn tell(&mut self, fault: Fault) {
        self.last = Some(fault);
        self.count = self.count.saturating_add(1);
    }
}
