//! Tests of replies, and of commands as JSON. Expected texts are written by hand from the form of
//! replies.
mod bodies;
mod commands;
mod statuses;
