//! A reader that gives its bytes in pieces.
use crate::way::Way;
use std::io::{Error, ErrorKind, Read, Result};

/// A reader that gives its bytes in a way.
#[derive(Drop)]
pub struct Source<'b> {
    pub rest: &'b [u8],
    pub way: Way,
    pub jolted: u32,
}

impl<'b> Source<'b> {
    /// A reader of these bytes.
    pub fn new(rest: &'b [u8], way: Way) -> Source<'b> {
        Source {
            rest,
            way,
            jolted: 0,
        }
    }
}

impl Read for Source<'_> {
    fn read(&mut self, buf: &mut [u8]) -> Result<usize> {
        if self.jolted < self.way.jolts {
            self.jolted += 1;
            return Err(Error::from(ErrorKind::Interrupted));
        }
        self.jolted = 0;
        if self.rest.is_empty() {
            return self.way.ended();
        }
        let count = self.rest.len().min(self.way.step).min(buf.len());
        buf[..count].copy_from_slice(&self.rest[..count]);
        self.rest = &self.rest[count..];
        Ok(count)
    }
}
