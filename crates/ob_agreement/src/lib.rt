//! The plain count and the book, side by side: laws alone.
//!
//! `outagebook total` and the book each define what a row means. Promises that they read a row
//! alike, and where they don't; and that what `total` counts of a text is what a book has after the
//! same rows. This crate is not a part of the program, and no other crate uses it.
#![tactic(auto)]

mod laws;

pub use laws::{counts_law, readings_law};
