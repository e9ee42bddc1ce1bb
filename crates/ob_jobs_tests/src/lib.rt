//! Tests of imports into a book, of exports and interruptions from one and of the program's jobs,
//! over a store in memory: reports, refused rows, failing readers and writers, printed lines and
//! exit statuses, and when a job opens its input. They are worked out by hand from the definitions.
//! The sample fortnight, imports with in-service intervals and files of version 1 are those of
//! `oracle/compare.py`. This crate holds only tests, and no other crate uses it.
#![tactic(auto)]

#[cfg(test)]
mod exports;
#[cfg(test)]
mod imports;
#[cfg(test)]
mod jobs;
#[cfg(test)]
mod office;
#[cfg(test)]
mod script;
#[cfg(test)]
mod streams;
#[cfg(test)]
mod tables;
