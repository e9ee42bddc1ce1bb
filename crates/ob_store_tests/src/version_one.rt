//! Tests of reading a book of version 1. Body texts are written by hand from the form that they had
//! in that version.
mod bodies;
mod parts;
