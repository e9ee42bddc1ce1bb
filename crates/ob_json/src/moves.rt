//! The changes of amounts that a command made or would make, as JSON.
ghost use Rattle.std.specs.Prelude.{◌≡◌, IfOk, map};
ghost use Rattle.serde_json.specs.View.{view};
ghost use Rattle.ob_json.specs.Moves.{move_data, moves_data};

use ob_post::Moved;
use serde_json::{Value, json};
use std::alloc::{AllocError, Global};

// The changes as a JSON array: `[["cause",3,-1200],..]`.
pub(crate) fn moves(alloc: Global, moved: &[Moved]) -> Result<Value, AllocError>
    ensures { IfOk result (λ v. view v ≡ moves_data moved.now) }
{
    let mut values = Vec::new(alloc);
    for row in moved {
        values.push(one_move(alloc, row)?)?;
    }
    Ok(Value::Array(values))
}

fn one_move(alloc: Global, row: &Moved) -> Result<Value, AllocError>
    ensures { IfOk result (λ v. view v ≡ move_data row.now) }
{
    json!(in alloc; [row.dim.word(), row.key, row.delta])
}
