//! Reports on the progress of long work.

/// The kind of work.
#[derive(Clone, Copy)]
pub enum Work {
    /// Opening a book: reading its heading and its commands.
    Opening,
    /// Replaying the commands of a book and comparing the changes of amounts that each makes.
    Commands,
    /// Comparing the tables of a book's parts.
    Tables,
    /// Applying the rows of a text.
    Rows,
}

/// Receives reports on the progress of long work. It gets no store and no book and returns nothing,
/// so the work is the same for every receiver.
pub trait Progress {
    /// Reports that work begins, of about this many steps; 0 if its steps aren't reported.
    fn begin(&mut self, work: Work, steps: u64);

    /// Reports that the step of this number, counted from 1, is done.
    fn step(&mut self, number: u32);

    /// Reports that the work has ended.
    fn end(&mut self);
}

/// Ignores all reports.
#[derive(Clone, Copy)]
pub struct Silent;

impl Progress for Silent {
    fn begin(&mut self, _work: Work, _steps: u64) {}

    fn step(&mut self, _number: u32) {}

    fn end(&mut self) {}
}
