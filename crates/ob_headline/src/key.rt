//! Whether amounts are kept under a key.
ghost use Rattle.std.specs.Prelude.{◌↔◌, IsTrue};
ghost use Rattle.ob_post.specs.Keys.{IsKey};

use ob_post::{CAUSES, Dim, FEEDERS};

/// Whether amounts are kept under this key of a dimension, in a book of this many days: causes 0 to
/// 63, feeders 1 to 255, and the days from 0.
pub(crate) fn is_key(days: u16, dim: Dim, key: u16) -> bool
    ensures { IsTrue result ↔ IsKey days dim key }
{
    match dim {
        Dim::Cause => key < CAUSES,
        Dim::Feeder => 1 <= key && key <= FEEDERS,
        Dim::Day => key < days,
    }
}
