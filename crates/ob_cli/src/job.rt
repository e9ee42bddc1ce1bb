//! The job that the program is to do.
ghost use Rattle.std.specs.Prelude.{◌≡◌, List, ℕ, IfOk};

use std::alloc::{AllocError, Global};
use std::marker::Model;

/// The text of a command-line argument. Contracts see it as its bytes.
#[derive(Drop)]
pub struct Word {
    text: String,
}

impl Model for Word {
    ghost Value = { List ℕ };

    ghost view = { λ w. w.text.bytes.items };
}

impl Word {
    pub(crate) fn new(alloc: Global, text: &str) -> Result<Word, AllocError>
        ensures { IfOk result (λ w. w ≡ text.now) }
    {
        let text = String::from_str(alloc, text)?;
        Ok(Word { text })
    }

    /// Its text.
    pub fn as_str(&self) -> &str
        ensures { result.now ≡ self.now }
    {
        self.text.as_str()
    }
}

/// What indices are listed by.
#[derive(Clone, Copy)]
pub enum By {
    /// The whole book, as one line.
    Whole,
    /// Home feeders.
    Feeder,
    /// Calendar months.
    Month,
    /// Days.
    Day,
    /// Causes.
    Cause,
    /// Sections.
    Section,
}

/// The job that the program is to do: one variant for each subcommand, with the values of its
/// options.
#[derive(Drop)]
pub enum Job {
    /// Counts the customer-seconds of the text on standard input.
    Total,
    /// Creates a book in a new file.
    Init {
        /// The file.
        book: Word,
        /// The first day of the period.
        first: Word,
        /// The number of days of the period.
        days: u16,
        /// The time zone.
        zone: Word,
    },
    /// Applies the commands of a CSV file to a book.
    Import {
        /// The book's file.
        book: Word,
        /// The file of the commands.
        input: Word,
        /// Whether all of them are applied, or none.
        whole: bool,
    },
    /// Writes the changes of amounts that a book's commands made into a CSV file.
    Export {
        /// The book's file.
        book: Word,
        /// The file to write, which replaces a file of that name.
        output: Word,
    },
    /// Writes the interruptions of a book's customers into a CSV file.
    Interruptions {
        /// The book's file.
        book: Word,
        /// The file to write, which replaces a file of that name.
        output: Word,
    },
    /// Prints the annual table of a book.
    Table {
        /// The book's file.
        book: Word,
    },
    /// Prints the indices of a book by feeder, month, day, cause or section.
    Indices {
        /// The book's file.
        book: Word,
        /// What they are listed by.
        by: By,
        /// The seconds of the longest momentary interruption, from 1 to 99,999.
        over: u64,
    },
    /// Compares the tables of a book with its commands.
    Audit {
        /// The book's file.
        book: Word,
    },
    /// Upgrades a book of version 1 to version 2.
    Migrate {
        /// The book's file.
        book: Word,
    },
    /// Serves a book over HTTP on 127.0.0.1.
    Serve {
        /// The book's file.
        book: Word,
        /// The port; 0 for any free port.
        port: u16,
        /// The number of streams that are served; 0 for 2^64 - 1.
        streams: u64,
    },
}
