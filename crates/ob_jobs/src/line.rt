//! The line of a change of an amount, made in memory by `csv`.
ghost use Rattle.std.specs.Prelude.{◌≡◌, map, string_bytes, IfOk};
ghost use Rattle.std.specs.Fmt.{decimal, signed_decimal};
ghost use Rattle.csv.specs.Writing.{default_writer, row_text};
ghost use Rattle.ob_post.specs.Keys.{dim_word};
ghost use Rattle.ob_jobs.specs.Text.{moved_line};

use csv::{Error, WriterBuilder};
use ob_post::{Dim, Moved};
use std::alloc::Global;

/// The bytes of the word for a dimension.
fn name_of(dim: Dim) -> &'static [u8]
    ensures { result.now ≡ dim_word dim }
{
    dim.word().as_bytes()
}

/// The text of one record.
fn record_text(alloc: Global, fields: &[&[u8]]) -> Result<Vec<u8>, Error>
    ensures { IfOk result (λ text. text.items ≡ row_text default_writer
        (map (λ f. f.now) fields.now)) }
{
    let mut writer = WriterBuilder::new().from_writer(Vec::new(alloc));
    writer.write_fields(fields)?;
    match writer.into_inner() {
        Ok(text) => Ok(text),
        Err(e) => Err(e.into_error()),
    }
}

/// A number in decimal.
fn decimal_text(alloc: Global, number: u32) -> Result<String, Error>
    ensures { IfOk result (λ text. string_bytes text ≡ decimal number) }
{
    match number.to_string(alloc) {
        Ok(text) => Ok(text),
        Err(_) => Err(Error::out_of_memory()),
    }
}

/// A number in decimal, with a sign if it is negative.
fn signed_text(alloc: Global, number: i64) -> Result<String, Error>
    ensures { IfOk result (λ text. string_bytes text ≡ signed_decimal number) }
{
    match number.to_string(alloc) {
        Ok(text) => Ok(text),
        Err(_) => Err(Error::out_of_memory()),
    }
}

/// The line of a change of an amount by a command.
pub(crate) fn line_of(alloc: Global, cmd: u32, m: &Moved) -> Result<Vec<u8>, Error>
    ensures { IfOk result (λ line. line.items ≡ moved_line cmd m.now) }
{
    let cmd = decimal_text(alloc, cmd)?;
    let key = decimal_text(alloc, u32::from(m.key))?;
    let delta = signed_text(alloc, m.delta)?;
    let fields = [
        cmd.as_bytes(),
        name_of(m.dim),
        key.as_bytes(),
        delta.as_bytes(),
    ];
    record_text(alloc, fields.as_slice())
}
