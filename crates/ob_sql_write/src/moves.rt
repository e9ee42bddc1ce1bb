//! Writes the rows of the amounts that a command changes.
ghost use Rattle.std.specs.Prelude.{◌≡◌, ◌<◌, ◌^◌, length, map};
ghost use Rattle.std.specs.Int.RustNames.{unsigned_abs};
ghost use Rattle.std.specs.List.{All};
ghost use Rattle.ob_sql_rows.specs.Rows.{Always};
ghost use Rattle.ob_sql_rows.specs.Rules.{HasKey, HasRoom};
ghost use Rattle.ob_sql_rows.specs.declared.table.Table.TheVariants.{Command, Posting};
ghost use Rattle.ob_sql_write.specs.Moves.{CanMove, HasAmounts, HasRows, LetsMoves, LetsRows, moved_amount, moved_to, with_amounts, with_moves, with_rows};
ghost use Rattle.ob_sql_write.specs.Keeps.{ChangesOpen};

use ob_base::Stop;
use ob_post::{Moved, Postings};
use ob_sql_rows::{MovedAmount, add_moved, add_moved_block, set_posting};
use sqlite::{Alter, Transaction};

/// Returns the amount under the key of a change after that change.
fn amount_after(postings: &Postings, it: &Moved) -> u64
    requires can { CanMove postings.now it.now }
    ensures value { result ≡ unsigned_abs (moved_to postings.now it.now) }
    ensures small { result < 2 ^ 63 }
{
    let Moved { dim, key, delta } = *it;
    (postings.amount(dim, key) as i64 + delta).unsigned_abs()
}

/// What the row of a change holds beside the number of the command.
fn amount_of(it: &Moved) -> MovedAmount
    ensures { result ≡ moved_amount it.now }
{
    MovedAmount {
        dim: u32::from(it.dim.number()),
        key: u32::from(it.key),
        delta: it.delta,
    }
}

/// What the rows of eight changes hold.
fn amounts_of(moves: &[Moved]) -> [MovedAmount; 8]
    requires { length moves.now ≡ 8 }
    ensures { result ≡ map moved_amount moves.now }
{
    [
        amount_of(&moves[0]),
        amount_of(&moves[1]),
        amount_of(&moves[2]),
        amount_of(&moves[3]),
        amount_of(&moves[4]),
        amount_of(&moves[5]),
        amount_of(&moves[6]),
        amount_of(&moves[7]),
    ]
}

/// Adds the rows of changes of amounts, eight by one statement as long as there are eight.
fn add_rows<S: Alter>(tx: &mut Transaction<'_, S>, no: u32, moves: &[Moved]) -> Result<(), Stop>
    ensures { ChangesOpen S.Store tx.old.conn tx.new.conn result Always
        (LetsRows no moves.now) (with_rows no moves.now) }
{
    'rows: for block in 0..moves.len() / 8 {
        let eight = amounts_of(&moves[8 * block..8 * block + 8]);
        add_moved_block(tx, no, &eight)?;
    }
    add_each(tx, no, &moves[8 * (moves.len() / 8)..])
}

/// Adds the rows of changes of amounts one by one.
fn add_each<S: Alter>(tx: &mut Transaction<'_, S>, no: u32, moves: &[Moved]) -> Result<(), Stop>
    ensures { ChangesOpen S.Store tx.old.conn tx.new.conn result Always
        (LetsRows no moves.now) (with_rows no moves.now) }
{
    'moves: for at in 0..moves.len() {
        let MovedAmount { dim, key, delta } = amount_of(&moves[at]);
        add_moved(tx, no, dim, key, delta)?;
    }
    Ok(())
}

/// Writes the amounts that stand after the changes.
fn set_amounts<S: Alter>(
    tx: &mut Transaction<'_, S>,
    postings: &Postings,
    moves: &[Moved],
) -> Result<(), Stop>
    requires can { All (CanMove postings.now) moves.now }
    ensures { ChangesOpen S.Store tx.old.conn tx.new.conn result (HasAmounts postings.now moves.now)
        (HasRoom Posting) (with_amounts postings.now moves.now) }
{
    'moves: for at in 0..moves.len() {
        let amount = amount_after(postings, &moves[at]);
        let MovedAmount { dim, key, delta: _ } = amount_of(&moves[at]);
        set_posting(tx, dim, key, amount)?;
    }
    Ok(())
}

/// Writes the rows of all changes of amounts that a command makes, and the amounts that then stand.
pub(crate) fn write_moves<S: Alter>(
    tx: &mut Transaction<'_, S>,
    no: u32,
    postings: &Postings,
    moves: &[Moved],
) -> Result<(), Stop>
    requires can { All (CanMove postings.now) moves.now }
    ensures { ChangesOpen S.Store tx.old.conn tx.new.conn result
        (HasRows no postings.now moves.now) (λ t. HasKey Command no t × LetsMoves no moves.now t)
        (with_moves no postings.now moves.now) }
{
    add_rows(tx, no, moves)?;
    set_amounts(tx, postings, moves)
}
