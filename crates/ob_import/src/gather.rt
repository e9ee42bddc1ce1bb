//! Reads a whole text before its rows are used, up to its end or to where the reader stopped.
ghost use Rattle.std.specs.Prelude.{◌≡◌, ◌⊎◌, ◌≤◌, ◌<◌, ◌+◌, ◌^◌, true, false, length, take, drop, IfOk};
ghost use Rattle.std.specs.Io.{ReadsAtMost};
ghost use Rattle.std.specs.Io.KnownBytes.{Consumes, IsAtEnd};
ghost use Rattle.ob_stream.specs.Watching.{HasJustFailed, watched_bytes};
ghost use Rattle.ob_stream.specs.Retrying.{TriesAll, TriesOrGivesUp};
ghost use Rattle.ob_stream.specs.Streams.{Passes, retries_left};
ghost use Rattle.ob_import.specs.Gathering.{is_over};

use ob_csv::whole_rows_end;
use ob_stream::{Retries, Watched, read_some};
use std::alloc::{AllocError, Global};
use std::io::Read;

/// The bytes from a reader, and whether they are the whole text.
#[derive(Drop)]
pub(crate) struct Gathered {
    pub(crate) bytes: Vec<u8>,
    pub(crate) whole: bool,
}

/// Reads up to the end of the text, to a failure, or to the byte after `limit`.
pub(crate) fn gather<R: Read>(
    alloc: Global,
    reader: &mut Watched<R>,
    retries: &mut Retries,
    limit: usize,
) -> Result<Gathered, AllocError>
    requires { limit < 2 ^ 32 }
    ensures consumed { IfOk result (λ g. Consumes (watched_bytes R.remaining reader.old)
        (watched_bytes R.remaining reader.new) g.bytes.items) }
    ensures whole { IfOk result (λ g. g.whole ≡ true
        → (is_over (watched_bytes R.remaining reader.new) ≡ true)
        × (length g.bytes.items ≤ limit)) }
    ensures cut { IfOk result (λ g. g.whole ≡ false
        → HasJustFailed reader.new ⊎ Passes (watched_bytes R.remaining reader.old) limit) }
    ensures ends { IfOk result (λ g. g.whole ≡ true → TriesAll (retries_left retries.old)
        (retries_left retries.new) reader.old reader.new) }
    ensures tries { TriesOrGivesUp (retries_left retries.old) (retries_left retries.new) reader.old
        reader.new }
{
    let mut bytes = Vec::new(alloc);
    let mut chunk = [0u8; 4096];
    while bytes.len() <= limit {
        let room = chunk.len().min(limit + 1 - bytes.len());
        match read_some(reader, retries, &mut chunk[..room]) {
            Ok(0) => return Ok(Gathered { bytes, whole: true }),
            Ok(count) => bytes.extend_from_slice(&chunk[..count])?,
            Err(_) => {
                return Ok(Gathered {
                    bytes,
                    whole: false,
                });
            }
        }
    }
    Ok(Gathered {
        bytes,
        whole: false,
    })
}

impl Gathered {
    ghost use Rattle.std.specs.Prelude.{◌≡◌};
    ghost use Rattle.ob_csv.specs.Rows.{rows_of};
    ghost use Rattle.ob_import.specs.Gathering.{gathered_rows};

    /// The part whose rows may be applied: a whole text entirely, or the complete rows of one that
    /// broke off.
    pub(crate) fn whole_part(&self) -> &[u8]
        ensures { rows_of result.now ≡ gathered_rows self.now.whole self.now.bytes.items }
    {
        let text = self.bytes.as_slice();
        if self.whole {
            text
        } else {
            &text[..whole_rows_end(text)]
        }
    }
}
