//! A writer that takes bytes in pieces while it has room.
use crate::way::Way;
use std::alloc::Global;
use std::io::{Error, ErrorKind, Result, Write};

/// A writer that takes its bytes in a way while it has room.
#[derive(Drop)]
pub struct Sink {
    pub taken: Vec<u8>,
    pub room: usize,
    pub way: Way,
    pub jolted: u32,
}

impl Sink {
    /// A writer with room for this many bytes.
    pub fn new(alloc: Global, room: usize, way: Way) -> Sink {
        Sink {
            taken: Vec::new(alloc),
            room,
            way,
            jolted: 0,
        }
    }
}

impl Write for Sink {
    fn write(&mut self, buf: &[u8]) -> Result<usize> {
        if self.jolted < self.way.jolts {
            self.jolted += 1;
            return Err(Error::from(ErrorKind::Interrupted));
        }
        self.jolted = 0;
        if self.room == 0 {
            return self.way.ended();
        }
        let count = buf.len().min(self.room).min(self.way.step);
        self.taken.extend_from_slice(&buf[..count])?;
        self.room -= count;
        Ok(count)
    }

    fn flush(&mut self) -> Result<()> {
        if self.room == 0 {
            self.way.ended()?;
        }
        Ok(())
    }
}
