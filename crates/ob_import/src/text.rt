//! The imports: of a text, and of a reader's content.
ghost use Rattle.std.specs.Prelude.{◌≡◌, ◌↔◌, None, Some, Err, IsSome, IfErr};
ghost use Rattle.ob_csv.specs.Rows.{rows_of};
ghost use Rattle.ob_store.specs.Calls.{IfHeld, TellsFaults, WasClean};
ghost use Rattle.ob_store.specs.Keepers.{book_of};
ghost use Rattle.ob_import.specs.Imports.{ImportedAgain, ImportsMakeOneThing};
ghost use Rattle.ob_import.specs.Reports.{HasCause, ImportOf, Imported, IsStoreFault, no_book};

use crate::gather::gather;
use crate::report::{ImportFault, ImportReport};
use crate::rows::import_rows;
use ob_base::Fault;
use ob_command::rows_law;
use ob_csv::{MOST_BYTES, RowReader, whole_rows_law};
use ob_store::{Alter, Keeper, Progress, Silent, Work};
use ob_stream::{Retries, Watched};
use ob_sweep::Timeline;
use std::alloc::Global;
use std::io::Read;

/// Imports the commands of a CSV text, RFC 4180. Its header is that of `ob_csv::column_names`, and
/// each row after it is applied on its own, in order. The first refusal stops the import, and the
/// rows before it stay in the book.
///
/// A text without the header stops at row 0 with `BadField(0)`. A row with another number of fields
/// than the header also stops it with `BadField(0)`, and row 1,000,001 with `Full(1000000)`.
///
/// # Errors
///
/// `Fault::Reopen` if the keeper has no book, `Fault::OutOfMemory`, `Fault::Store`. The rows
/// applied before stay in the book. After a fault of the store the row being applied may be in it
/// too, which the next `load` shows.
pub fn import_text<S: Alter, T: Timeline>(
    alloc: Global,
    text: &[u8],
    keeper: &mut Keeper<S, T>,
) -> Result<ImportReport, ImportFault>
    ensures reopen { (book_of keeper.old ≡ None) ↔ (result ≡ no_book) }
    ensures unopened { book_of keeper.old ≡ None → keeper.new ≡ keeper.old }
    ensures imported { IfHeld keeper.old keeper.new (λ b. Imported keeper.new b
        (Some (rows_of text.now)) result) }
    ensures clean { WasClean keeper.old keeper.new }
    ensures dropped { IsSome (book_of keeper.old) → (book_of keeper.new ≡ None)
        ↔ IsStoreFault result }
    ensures cause { IsSome (book_of keeper.old) → IfErr result (λ e. HasCause e.fault ⊥) }
    // no fault of the store is forgotten, row numbers and the step limit stay, and a store fault has
    // a cause
    ensures tells { TellsFaults keeper.old keeper.new (IsStoreFault result) }
{
    if keeper.book().is_none() {
        return Err(fault_without_book());
    }
    let mut rows = RowReader::new(alloc, text);
    import_rows(alloc, &mut rows, true, keeper, &mut Silent)
}

/// Imports the commands of the CSV text from a reader, as `import_text`. The text has at most
/// `ob_csv::MOST_BYTES` bytes. Interrupted reads are repeated, 65,536 times in all.
///
/// # Errors
///
/// Those of `import_text`, and `Fault::Input` if the reader fails or the text is longer. All
/// complete rows read by then have been applied and stay in the book. The last row is complete if
/// its line end is there.
pub fn import<R: Read, S: Alter, T: Timeline>(
    alloc: Global,
    reader: &mut Watched<R>,
    keeper: &mut Keeper<S, T>,
) -> Result<ImportReport, ImportFault>
    ensures { ImportOf R.remaining keeper.old keeper.new reader.old reader.new result }
{
    import_with_progress(alloc, reader, keeper, &mut Silent)
}

/// Imports the commands of the CSV text from a reader, as `import`, and reports each applied row to
/// `progress` after its commit.
///
/// # Errors
///
/// Those of `import`.
pub fn import_with_progress<R: Read, S: Alter, T: Timeline, P: Progress>(
    alloc: Global,
    reader: &mut Watched<R>,
    keeper: &mut Keeper<S, T>,
    progress: &mut P,
) -> Result<ImportReport, ImportFault>
    ensures { ImportOf R.remaining keeper.old keeper.new reader.old reader.new result }
{
    if keeper.book().is_none() {
        return Err(fault_without_book());
    }
    let mut retries = Retries::new();
    whole_rows_law();
    let Ok(gathered) = gather(alloc, reader, &mut retries, MOST_BYTES) else {
        return Err(ImportFault {
            fault: Fault::OutOfMemory,
            added: 0,
            again: 0,
        });
    };
    let part = gathered.whole_part();
    // the first line is the header
    progress.begin(Work::Rows, lines_of(part).saturating_sub(1));
    let mut rows = RowReader::new(alloc, part);
    let run = import_rows(alloc, &mut rows, gathered.whole, keeper, progress);
    progress.end();
    run
}

/// The number of line ends in a text.
pub(crate) fn lines_of(text: &[u8]) -> u64 {
    text.iter().filter(|byte| **byte == b'\n').count() as u64
}

/// The fault of an import without a book.
pub(crate) fn fault_without_book() -> ImportFault
    ensures { Err result ≡ no_book }
{
    ImportFault {
        fault: Fault::Reopen,
        added: 0,
        again: 0,
    }
}

/// States that an import of a text has exactly one result for a book, and that importing the text
/// again leaves that state and adds nothing. Does nothing at run time.
pub fn import_law()
    ensures one { ImportsMakeOneThing }
    ensures again { ImportedAgain }
{
    rows_law();
}
