//! The reliability indices as JSON: over all interruptions, and over those that don't begin on a
//! major event day.
ghost use Rattle.std.specs.Prelude.{◌≡◌, map, IfOk, IfErr};
ghost use Rattle.ob_base.specs.Stop.{out_of_memory};
ghost use Rattle.serde_json.specs.Data.{array};
ghost use Rattle.serde_json.specs.View.{view, items_of};
ghost use Rattle.ob_json.specs.Indices.{index_data, indices_data, both_data};
ghost use Rattle.ob_json.specs.Indices as definition;

use ob_base::Stop;
use ob_index::{Fraction, Indices};
use serde_json::{Value, json};
use std::alloc::{AllocError, Global};

/// Returns the indices over all interruptions and over those that don't begin on a major event day:
/// `{"all":{..},"unmarked":{..}}`. Each index is a text `p/q` in lowest terms, or `undefined`.
/// Fails only if an allocation fails.
pub fn indices_text(alloc: Global, all: &Indices, unmarked: &Indices) -> Result<Vec<u8>, Stop>
    ensures text { IfOk result (λ text. text.items ≡ definition.indices_text all.now unmarked.now) }
    ensures err { IfErr result (λ stop. stop ≡ out_of_memory) }
{
    let both = both(alloc, all, unmarked)?;
    Ok(both.to_vec(alloc)?)
}

// Both sets of indices as JSON.
fn both(alloc: Global, all: &Indices, unmarked: &Indices) -> Result<Value, AllocError>
    ensures { IfOk result (λ v. view v ≡ both_data all.now unmarked.now) }
{
    json!(in alloc; {"all": indices(alloc, all)?, "unmarked": indices(alloc, unmarked)?})
}

// One set of indices as JSON.
fn indices(alloc: Global, indices: &Indices) -> Result<Value, AllocError>
    ensures { IfOk result (λ v. view v ≡ indices_data indices.now) }
{
    json!(in alloc; {
        "asai": index(alloc, indices.asai)?,
        "caidi": index(alloc, indices.caidi)?,
        "caifi": index(alloc, indices.caifi)?,
        "cemi": list(alloc, &indices.cemi)?,
        "momentary": indices.momentary,
        "saidi": index(alloc, indices.saidi)?,
        "saifi": index(alloc, indices.saifi)?,
        "sustained": indices.sustained
    })
}

// A list of indices as a JSON array.
fn list(alloc: Global, indices: &[Option<Fraction>]) -> Result<Value, AllocError>
    ensures { IfOk result (λ v. view v ≡ array (items_of (map index_data indices.now))) }
{
    let mut values = Vec::new(alloc);
    for fraction in indices {
        values.push(index(alloc, *fraction)?)?;
    }
    Ok(Value::Array(values))
}

// One index as JSON.
fn index(alloc: Global, index: Option<Fraction>) -> Result<Value, AllocError>
    ensures { IfOk result (λ v. view v ≡ index_data index) }
{
    match index {
        Some(fraction) => Ok(Value::String(fraction.to_string(alloc)?)),
        None => json!(in alloc; "undefined"),
    }
}
