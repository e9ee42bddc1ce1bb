//! What is shown of a book, with all that it means in one contract.
//!
//! Shows of the book that a `Keeper` has: the customer-seconds without supply under a key and in
//! all, the indices, and the three texts. Promises that each is what its definition states of the
//! one book that the store keeps: sums of ones over every second and every customer in service from
//! whose section no walk of closed devices leads to GRID; that each command moved what its number
//! records, and that these moves add up to what is shown; and that each index is its quotient.
//! `ob_lists` uses it to state the same after any list of calls.
#![tactic(auto)]

mod figures;
mod key;
mod showing;
mod text;

pub use figures::Shown;
pub use showing::shown;
pub use text::Text;
