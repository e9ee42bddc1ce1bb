//! Applies one row of an import.
ghost use Rattle.std.specs.Prelude.{◌≡◌, ◌↔◌, None, Err, IsSome, IfSome, IfErr};
ghost use Rattle.ob_command.specs.Fields.{IsRow};
ghost use Rattle.ob_store.specs.Acting.{IsActStop};
ghost use Rattle.ob_store.specs.Calls.{IfStored, TellsFaults, WasClean};
ghost use Rattle.ob_store.specs.Keepers.{book_of};
ghost use Rattle.ob_import.specs.Acting.{AddsRow};

use ob_base::{Fault, Ref, Refusal, Stop};
use ob_book::Command;
use ob_command::read_row;
use ob_csv::Row;
use ob_record::reached_law;
use ob_store::{Alter, Keeper};
use ob_sweep::Timeline;

/// Applies the command in a row, and returns whether it was new to the book.
pub(crate) fn act_row<S: Alter, T: Timeline>(
    keeper: &mut Keeper<S, T>,
    row: &Row,
) -> Result<bool, Stop>
    requires { IsSome (book_of keeper.old) }
    ensures faults { IfErr result IsActStop }
    ensures clean { WasClean keeper.old keeper.new }
    ensures dropped { (book_of keeper.new ≡ None) ↔ (result ≡ Err (Stop.Fault Fault.Store)) }
    ensures acted { IfStored keeper.old keeper.new (λ b. AddsRow keeper.new b row.now result) }
    ensures tells { TellsFaults keeper.old keeper.new (result ≡ Err (Stop.Fault Fault.Store)) }
{
    reached_law();
    let said = match command_in(row) {
        Ok(said) => said,
        Err(refusal) => return Err(Stop::Refused(refusal)),
    };
    let before = accepted_count(keeper);
    keeper.act(said.0, said.1)?;
    Ok(before < accepted_count(keeper))
}

/// Reads the reference and the command in a row.
pub(crate) fn command_in(row: &Row) -> Result<(Ref, Command), Refusal>
    ensures { IsRow row.now result }
{
    match row.fields() {
        Some(fields) => read_row(&fields),
        None => Err(Refusal::BadField(0)),
    }
}

/// The number of commands that the book has accepted.
fn accepted_count<S: Alter, T: Timeline>(keeper: &Keeper<S, T>) -> u32
    ensures { IfSome (book_of keeper.now) (λ s. result ≡ s.accepted) }
{
    match keeper.book() {
        Some(book) => book.accepted(),
        None => 0,
    }
}
