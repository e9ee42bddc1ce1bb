//! The inputs, outputs and ports that the program gives to its jobs, in memory.
use ob_base::{Fault, Stop};
use ob_harness::{FULL, Sink, Source, WHOLE};
use ob_jobs::{OpenInput, OpenOutput, ServeBook};
use ob_store::Keeper;
use ob_sweep::Timeline;
use sqlite::Alter;
use std::alloc::Global;

/// An input of this text, or one that can't be opened.
#[derive(Drop)]
pub struct Input {
    pub text: Option<&'static str>,
    pub tried: bool,
}

impl OpenInput for Input {
    ghost use Rattle.std.specs.Prelude.{⊤};

    type Input = Source<'static>;

    ghost opens = { λ _ _ _. ⊤ };

    fn open(&mut self) -> Option<Source<'static>> {
        self.tried = true;
        let text = self.text?;
        Some(Source::new(text.as_bytes(), WHOLE))
    }
}

/// An output with this much room, or one that can't be made.
#[derive(Drop)]
pub struct Output {
    pub alloc: Global,
    pub room: Option<usize>,
    pub tried: bool,
}

impl OpenOutput for Output {
    ghost use Rattle.std.specs.Prelude.{⊤};

    type Output = Sink;

    ghost opens = { λ _ _ _. ⊤ };

    fn open(&mut self) -> Option<Sink> {
        self.tried = true;
        let room = self.room?;
        Some(Sink::new(self.alloc, room, FULL))
    }
}

/// A port that was taken.
#[derive(Drop)]
pub struct Port;

/// A server whose port is free or not.
#[derive(Drop)]
pub struct Server {
    pub free: bool,
    pub tried: bool,
}

impl ServeBook for Server {
    ghost use Rattle.std.specs.Prelude.{⊤};

    type Port = Port;

    ghost takes = { λ _ _ _. ⊤ };

    ghost serves = { λ _ _ _ _ _ _. ⊤ };

    fn take(&mut self) -> Result<Port, Stop> {
        self.tried = true;
        if self.free {
            Ok(Port)
        } else {
            Err(Stop::Fault(Fault::Input))
        }
    }

    fn serve<S: Alter, T: Timeline>(
        &mut self,
        _port: Port,
        keeper: &mut Keeper<S, T>,
    ) -> Result<(), Stop> {
        if keeper.book().is_none() {
            return Err(Stop::Fault(Fault::Reopen));
        }
        Ok(())
    }
}
