//! The JSON bodies of replies, RFC 8259.
ghost use Rattle.std.specs.Prelude.{◌≡◌, IfErr, IfOk, map, string_bytes, true};
ghost use Rattle.serde_json.specs.Data.{array};
ghost use Rattle.serde_json.specs.View.{items_of, view};
ghost use Rattle.ob_base.specs.Identifier.{is_identifier};
ghost use Rattle.ob_base.specs.Stop.{out_of_memory};
ghost use Rattle.ob_http_replies.specs.Bodies.{accepted_data, entry_data, move_data, position_word, refused_data, report_data, stopped_data};
ghost use Rattle.ob_http_replies.specs.Bodies as definition;

use ob_base::{Identifier, Name, Pos, Refusal, Stop};
use ob_post::Moved;
use ob_sheet::Entry;
use serde_json::{Value, json};
use std::alloc::{AllocError, Global};

/// Returns the body of the reply to an accepted command: its number, and the changes of amounts
/// that it made, as `{"moved":[["cause",3,-1200],..],"no":26}`. Fails only if an allocation fails.
pub fn accepted_text(alloc: Global, no: u32, moved: &[Moved]) -> Result<Vec<u8>, Stop>
    ensures text { IfOk result (λ text. text.items ≡ definition.accepted_text «no» moved.now) }
    ensures err { IfErr result (λ stop. stop ≡ out_of_memory) }
{
    let accepted = accepted_value(alloc, no, moved)?;
    Ok(accepted.to_vec(alloc)?)
}

fn accepted_value(alloc: Global, no: u32, moved: &[Moved]) -> Result<Value, AllocError>
    ensures { IfOk result (λ v. view v ≡ accepted_data «no» moved.now) }
{
    json!(in alloc; {"moved": moves(alloc, moved)?, "no": no})
}

fn moves(alloc: Global, moved: &[Moved]) -> Result<Value, AllocError>
    ensures { IfOk result (λ v. view v ≡ array (items_of (map move_data moved.now))) }
{
    let mut values = Vec::new(alloc);
    for row in moved {
        values.push(one_move(alloc, row)?)?;
    }
    Ok(Value::Array(values))
}

fn one_move(alloc: Global, row: &Moved) -> Result<Value, AllocError>
    ensures { IfOk result (λ v. view v ≡ move_data row.now) }
{
    json!(in alloc; [row.dim.word(), row.key, row.delta])
}

/// Returns the body of the reply to a refused command, `{"detail":2,"name":"Stale","refused":7}`.
/// `detail` is left out if the refusal has none. Fails only if an allocation fails.
pub fn refused_text(alloc: Global, refusal: &Refusal) -> Result<Vec<u8>, Stop>
    ensures text { IfOk result (λ text. text.items ≡ definition.refused_text refusal.now) }
    ensures err { IfErr result (λ stop. stop ≡ out_of_memory) }
{
    let refused = refused_value(alloc, refusal)?;
    Ok(refused.to_vec(alloc)?)
}

fn refused_value(alloc: Global, refusal: &Refusal) -> Result<Value, AllocError>
    ensures { IfOk result (λ v. view v ≡ refused_data refusal.now) }
{
    let name = refusal.name();
    let number = refusal.number();
    match refusal.detail() {
        Some(detail) => json!(in alloc; {"detail": detail, "name": name, "refused": number}),
        None => json!(in alloc; {"name": name, "refused": number}),
    }
}

/// Returns the body of the reply to an import, `{"added":1,"again":3,"stopped":null}`: how many
/// commands it added, and how many the book had already. If a refusal stopped it, `stopped` is the
/// row and the refusal, `{"name":"NameTaken","refused":3,"row":4}`, with `detail` first if there is
/// one. Fails only if an allocation fails.
pub fn report_text(
    alloc: Global,
    added: u32,
    again: u32,
    stopped: Option<(u32, Refusal)>,
) -> Result<Vec<u8>, Stop>
    ensures text { IfOk result (λ text. text.items ≡ definition.report_text added again stopped) }
    ensures err { IfErr result (λ stop. stop ≡ out_of_memory) }
{
    let report = report(alloc, added, again, stopped)?;
    Ok(report.to_vec(alloc)?)
}

fn report(
    alloc: Global,
    added: u32,
    again: u32,
    stopped: Option<(u32, Refusal)>,
) -> Result<Value, AllocError>
    ensures { IfOk result (λ v. view v ≡ report_data added again stopped) }
{
    json!(in alloc; {"added": added, "again": again, "stopped": stop_of(alloc, stopped)?})
}

fn stop_of(alloc: Global, stopped: Option<(u32, Refusal)>) -> Result<Value, AllocError>
    ensures { IfOk result (λ v. view v ≡ stopped_data stopped) }
{
    let Some((row, refusal)) = stopped else {
        return Ok(Value::Null);
    };
    let name = refusal.name();
    let number = refusal.number();
    match refusal.detail() {
        Some(detail) => {
            json!(in alloc; {"detail": detail, "name": name, "refused": number, "row": row})
        }
        None => json!(in alloc; {"name": name, "refused": number, "row": row}),
    }
}

/// Returns the body of the reply that shows an entry of the device with this name, on one line:
/// `{"cause":3,"crew":"K1","device":"B1","kept":true,"no":1,"position":"open","revision":1,
/// "second":1704070800}`. `position` is the device's position after the entry, `open` or `closed`.
/// Fails only if an allocation fails.
pub fn entry_text(alloc: Global, entry: &Entry, device: &Name) -> Result<Vec<u8>, Stop>
    ensures text { IfOk result (λ text. text.items ≡ definition.entry_text entry.now device.now) }
    ensures err { IfErr result (λ stop. stop ≡ out_of_memory) }
{
    let shown = entry_value(alloc, entry, device)?;
    Ok(shown.to_vec(alloc)?)
}

fn entry_value(alloc: Global, entry: &Entry, device: &Name) -> Result<Value, AllocError>
    ensures { IfOk result (λ v. view v ≡ entry_data entry.now device.now) }
{
    json!(in alloc; {
        "cause": entry.cause,
        "crew": identifier(alloc, &entry.crew)?,
        "device": identifier(alloc, device)?,
        "kept": entry.kept,
        "no": entry.no,
        "position": word_of_position(entry.pos),
        "revision": entry.rev,
        "second": entry.second
    })
}

#[tactic(auto, using(crate::proofs::Identifiers::identifier_is_utf8))]
fn identifier<const N: usize>(alloc: Global, text: &Identifier<N>) -> Result<String, AllocError>
    ensures { IfOk result (λ s. string_bytes s ≡ text.now) }
{
    String::from_utf8_lossy(alloc, text.bytes())
}

fn word_of_position(pos: Pos) -> &'static str
    ensures { result.now ≡ position_word pos }
{
    match pos {
        Pos::Opened => "open",
        Pos::Closed => "closed",
    }
}
