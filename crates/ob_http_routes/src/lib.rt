//! Answers one request to the desk (the book's HTTP server) from a keeper's book.
//!
//! Defines the routes, the answer of each, and the bytes of its reply. Promises that a reply is
//! that of the book, whose next state is then in the store. A fault leaves the state before the
//! request, or the state with the command, or with the first rows of an import. A plan changes
//! nothing, and nor does any request without a book. This crate knows no stream: `ob_desk` uses it
//! and serves the streams.
#![tactic(auto)]

mod desk;
mod laws;
mod plan;
mod post;
mod reply;
mod routes;
mod show;

pub use desk::answer;
pub use laws::answers_law;
pub use reply::ReplyText;
pub use routes::{Route, Routes, View, routes_law};
