//! A law on the sums of amounts. Its function does nothing at run time.
ghost use Rattle.std.specs.Prelude.{◌≡◌};
ghost use Rattle.ob_post.specs.Postings.{total_of};
ghost use Rattle.ob_post.specs.declared.Dim.{Dim as Dimension};
ghost use Rattle.ob_book.specs.Books.{ArePosted};
ghost use Rattle.ob_book.specs.Views.{without_supply_of_book};

use ob_post::Postings;
use ob_post::laws::total_laws;
use ob_state::State;

/// States that the amounts of each dimension add up to all customer-seconds without supply.
pub fn amounts_add_up(state: &State, postings: &Postings)
    requires posted { ArePosted state.now.state postings.now }
    ensures totals { (dim : Dimension) → total_of postings.now dim
        ≡ without_supply_of_book state.now.state }
{
    total_laws();
    let _ = (state.accepted(), state.period().days());
}
