//! The jobs, and how each ends with a `Keeper`.
use crate::jobs::host::{Input, Output, Server};
use ob_base::Stop;
use ob_cli::{Unfinished, status_of_run};
use ob_harness::Sink;
use ob_jobs::{
    Silent, audit_book, export_from_book, import_into_book, import_whole_into_book,
    interruptions_from_book, make_book, migrate_book, print_book, serve_book,
};
use ob_store::Keeper;
use ob_stream::Watched;
use ob_sweep::Timeline;
use sqlite::Alter;
use std::alloc::Global;

/// A job.
#[derive(Clone, Copy)]
pub enum Ask {
    /// Creates a book of this many days from 2024-01-01 on, in UTC.
    Make(u16),
    /// Imports this text, or an input that can't be opened.
    Import(Option<&'static str>),
    /// Imports all of this text or nothing, or an input that can't be opened.
    ImportWhole(Option<&'static str>),
    /// Writes the moved amounts into an output with this much room, or one that can't be made.
    Export(Option<usize>),
    /// Writes the interruptions into an output with this much room, or one that can't be made.
    Interruptions(Option<usize>),
    /// Prints the annual table.
    Print,
    /// Compares the tables.
    Audit,
    /// Migrates a book of version 1 to version 2.
    Migrate,
    /// Serves the book at a port that is free or not.
    Serve(bool),
}

/// Why a job stopped, and at which row.
pub type Halt = Option<(Stop, Option<u32>)>;

/// How a job ended: its status, why it stopped, what it printed, and whether it tried an input, an
/// output or a port.
#[derive(Drop)]
pub struct Told {
    pub status: u8,
    pub halt: Halt,
    pub text: Vec<u8>,
    pub tried: bool,
}

fn ended_as(run: &Result<(), Unfinished>, writer: Watched<Sink>, tried: bool) -> Told {
    let halt = match run {
        Err(Unfinished::Stopped(stop, row)) => Some((*stop, *row)),
        Ok(()) | Err(Unfinished::Words(_)) | Err(Unfinished::Differs) => None,
    };
    Told {
        status: status_of_run(run),
        halt,
        text: writer.into_parts().0.taken,
        tried,
    }
}

/// Creates a book of this many days.
pub fn makes<S: Alter, T: Timeline>(
    keeper: &mut Keeper<S, T>,
    days: u16,
    mut writer: Watched<Sink>,
) -> Told {
    let run = make_book(keeper, b"2024-01-01", days, b"UTC0", &mut writer);
    ended_as(&run, writer, false)
}

/// Imports a text row by row, or as a whole, or an input that can't be opened.
pub fn imports<S: Alter, T: Timeline>(
    alloc: Global,
    keeper: &mut Keeper<S, T>,
    text: Option<&'static str>,
    whole: bool,
    mut writer: Watched<Sink>,
) -> Told {
    let mut input = Input { text, tried: false };
    let run = if whole {
        import_whole_into_book(alloc, keeper, &mut input, &mut Silent, &mut writer)
    } else {
        import_into_book(alloc, keeper, &mut input, &mut Silent, &mut writer)
    };
    ended_as(&run, writer, input.tried)
}

/// Writes the moved amounts into an output with this much room, or one that can't be made.
pub fn exports<S: Alter, T: Timeline>(
    alloc: Global,
    keeper: &mut Keeper<S, T>,
    room: Option<usize>,
    mut writer: Watched<Sink>,
) -> Told {
    let mut output = Output {
        alloc,
        room,
        tried: false,
    };
    let run = export_from_book(alloc, keeper, &mut output, &mut Silent, &mut writer);
    ended_as(&run, writer, output.tried)
}

/// Writes the interruptions into an output with this much room, or one that can't be made.
pub fn lists<S: Alter, T: Timeline>(
    alloc: Global,
    keeper: &mut Keeper<S, T>,
    room: Option<usize>,
    mut writer: Watched<Sink>,
) -> Told {
    let mut output = Output {
        alloc,
        room,
        tried: false,
    };
    let run = interruptions_from_book(alloc, keeper, &mut output, &mut Silent, &mut writer);
    ended_as(&run, writer, output.tried)
}

/// Prints the annual table.
pub fn prints<S: Alter, T: Timeline>(keeper: &mut Keeper<S, T>, mut writer: Watched<Sink>) -> Told {
    let run = print_book(keeper, &mut Silent, &mut writer);
    ended_as(&run, writer, false)
}

/// Compares the tables.
pub fn audits<S: Alter, T: Timeline>(
    alloc: Global,
    keeper: &mut Keeper<S, T>,
    mut writer: Watched<Sink>,
) -> Told {
    let run = audit_book(alloc, keeper, &mut writer);
    ended_as(&run, writer, false)
}

/// Migrates a book of version 1 to version 2.
pub fn migrates<S: Alter, T: Timeline>(
    keeper: &mut Keeper<S, T>,
    mut writer: Watched<Sink>,
) -> Told {
    let run = migrate_book(keeper, &mut writer);
    ended_as(&run, writer, false)
}

/// Serves the book at a port that is free or not.
pub fn serves<S: Alter, T: Timeline>(
    keeper: &mut Keeper<S, T>,
    free: bool,
    writer: Watched<Sink>,
) -> Told {
    let mut server = Server { free, tried: false };
    let run = serve_book(keeper, &mut server, &mut Silent);
    ended_as(&run, writer, server.tried)
}
