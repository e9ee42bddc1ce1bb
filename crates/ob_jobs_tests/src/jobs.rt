//! Tests of the program's jobs: what each prints, its exit status, when an input is opened, and
//! what is left after a writer fails or memory is refused. The lines and statuses are worked out by
//! hand from the definitions.
pub mod calls;
mod host;
mod memory;
pub mod script;
mod steps;
