//! The figures and the texts that are shown of a book.
ghost use Rattle.std.specs.Prelude.{◌≡◌, IfOk, IfErr};
ghost use Rattle.ob_base.specs.Stop.{out_of_memory};
ghost use Rattle.ob_time.specs.Calendar.{day_count};
ghost use Rattle.ob_post.specs.Keys.{IsKey};
ghost use Rattle.ob_book.specs.Acts.{ActState};
ghost use Rattle.ob_record.specs.Reached.{IsReached};
ghost use Rattle.ob_headline.specs.Headline.{IsHeadline};

use crate::text::Text;
use ob_base::Stop;
use ob_book::{Book, acts_law, next_law};
use ob_index::{Indices, Which};
use ob_net::walk_law;
use ob_post::Dim;
use ob_post::laws::{move_laws, total_laws};
use ob_sweep::Timeline;

/// What is shown of a book.
#[derive(Drop)]
pub struct Shown {
    /// The customer-seconds without supply under a key of a dimension.
    pub amount: u64,
    /// All customer-seconds without supply.
    pub total: u64,
    /// The indices, over all interruptions or over the unmarked ones.
    pub indices: Indices,
    /// The totals as JSON.
    pub totals_text: Text,
    /// The indices as JSON, over all interruptions and over the unmarked ones.
    pub indices_text: Text,
    /// The annual table.
    pub annual_table: Text,
}

/// What is shown of a book that keeps an amount under the key. Fails only if an allocation fails.
pub(crate) fn shown_of<T: Timeline>(
    book: &Book<T>,
    dim: Dim,
    key: u16,
    which: Which,
) -> Result<Shown, Stop>
    requires key { IsKey (day_count book.now.state.period) dim key }
    ensures headline { (b : ActState) → IsReached b → book.now.state ≡ b.book
        → IfOk result (IsHeadline b dim key which) }
    ensures err { IfErr result (λ stop. stop ≡ out_of_memory) }
{
    acts_law();
    next_law();
    walk_law();
    move_laws();
    total_laws();
    let postings = book.postings();
    let totals_text = Text::new(book.totals_text()?);
    let indices_text = Text::new(book.indices_text()?);
    let annual_table = Text::new(book.annual_text()?);
    Ok(Shown {
        amount: postings.amount(dim, key),
        total: postings.total(dim),
        indices: book.index_view(which),
        totals_text,
        indices_text,
        annual_table,
    })
}
