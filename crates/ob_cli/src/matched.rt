//! Reads the job from the matches of a subcommand.
ghost use Rattle.std.specs.Prelude.{◌≡◌, IfOk, option_and_then};
ghost use Rattle.clap.specs.Words.{first_of, found_of, rows_of, subcommand_rows_of};
ghost use Rattle.ob_cli.specs.Jobs.{audit_job, by_given, by_named as by_of_word, export_job, import_job, indices_job, init_job, interruptions_job, job_named, migrate_job, serve_job, table_job};
ghost use Rattle.ob_cli.specs.Values.{count_given, flag_given, number_given};

use crate::job::{By, Job, Word};
use clap::ArgMatches;
use std::alloc::{AllocError, Global};

fn word_of(alloc: Global, matches: &ArgMatches<'_>, name: &str) -> Result<Option<Word>, AllocError>
    ensures { IfOk result (λ r. r ≡ first_of name.now (rows_of (found_of matches.now))) }
{
    match matches.get_str(name) {
        Some(text) => Ok(Some(Word::new(alloc, text)?)),
        None => Ok(None),
    }
}

fn number_of(matches: &ArgMatches<'_>, name: &str) -> Option<u16>
    ensures { result ≡ number_given name.now (rows_of (found_of matches.now)) }
{
    matches.get_one::<u16>(name)
}

/// Returns the 64-bit number given for an option.
fn count_of(matches: &ArgMatches<'_>, name: &str) -> Option<u64>
    ensures { result ≡ count_given name.now (rows_of (found_of matches.now)) }
{
    matches.get_one::<u64>(name)
}

/// Returns whether an option without a value is given.
fn flag_of(matches: &ArgMatches<'_>, name: &str) -> bool
    ensures { result ≡ flag_given name.now (rows_of (found_of matches.now)) }
{
    match matches.get_str(name) {
        Some(text) => text == "true",
        None => false,
    }
}

fn init_from(alloc: Global, matches: &ArgMatches<'_>) -> Result<Option<Job>, AllocError>
    ensures { IfOk result (λ r. r ≡ init_job (rows_of (found_of matches.now))) }
{
    let book = word_of(alloc, matches, "book")?;
    let first = word_of(alloc, matches, "first")?;
    let days = number_of(matches, "days");
    let zone = word_of(alloc, matches, "zone")?;
    match (book, first, days, zone) {
        (Some(book), Some(first), Some(days), Some(zone)) => Ok(Some(Job::Init {
            book,
            first,
            days,
            zone,
        })),
        _ => Ok(None),
    }
}

fn import_from(alloc: Global, matches: &ArgMatches<'_>) -> Result<Option<Job>, AllocError>
    ensures { IfOk result (λ r. r ≡ import_job (rows_of (found_of matches.now))) }
{
    let book = word_of(alloc, matches, "book")?;
    let input = word_of(alloc, matches, "INPUT")?;
    let whole = flag_of(matches, "whole");
    match (book, input) {
        (Some(book), Some(input)) => Ok(Some(Job::Import { book, input, whole })),
        _ => Ok(None),
    }
}

fn export_from(alloc: Global, matches: &ArgMatches<'_>) -> Result<Option<Job>, AllocError>
    ensures { IfOk result (λ r. r ≡ export_job (rows_of (found_of matches.now))) }
{
    let book = word_of(alloc, matches, "book")?;
    let output = word_of(alloc, matches, "OUTPUT")?;
    match (book, output) {
        (Some(book), Some(output)) => Ok(Some(Job::Export { book, output })),
        _ => Ok(None),
    }
}

fn interruptions_from(alloc: Global, matches: &ArgMatches<'_>) -> Result<Option<Job>, AllocError>
    ensures { IfOk result (λ r. r ≡ interruptions_job (rows_of (found_of matches.now))) }
{
    let book = word_of(alloc, matches, "book")?;
    let output = word_of(alloc, matches, "OUTPUT")?;
    match (book, output) {
        (Some(book), Some(output)) => Ok(Some(Job::Interruptions { book, output })),
        _ => Ok(None),
    }
}

fn table_from(alloc: Global, matches: &ArgMatches<'_>) -> Result<Option<Job>, AllocError>
    ensures { IfOk result (λ r. r ≡ table_job (rows_of (found_of matches.now))) }
{
    match word_of(alloc, matches, "book")? {
        Some(book) => Ok(Some(Job::Table { book })),
        None => Ok(None),
    }
}

/// Returns what indices are to be listed by; `None` if the word is none of those.
fn by_of(matches: &ArgMatches<'_>) -> Option<By>
    ensures { result ≡ by_given (rows_of (found_of matches.now)) }
{
    match matches.get_str("by") {
        Some(word) => by_named(word),
        None => None,
    }
}

fn by_named(word: &str) -> Option<By>
    ensures { result ≡ by_of_word word.now }
{
    match word {
        "whole" => Some(By::Whole),
        "feeder" => Some(By::Feeder),
        "month" => Some(By::Month),
        "day" => Some(By::Day),
        "cause" => Some(By::Cause),
        "section" => Some(By::Section),
        _ => None,
    }
}

fn indices_from(alloc: Global, matches: &ArgMatches<'_>) -> Result<Option<Job>, AllocError>
    ensures { IfOk result (λ r. r ≡ indices_job (rows_of (found_of matches.now))) }
{
    let book = word_of(alloc, matches, "book")?;
    let by = by_of(matches);
    let over = count_of(matches, "over");
    match (book, by, over) {
        (Some(book), Some(by), Some(over)) => Ok(Some(Job::Indices { book, by, over })),
        _ => Ok(None),
    }
}

fn audit_from(alloc: Global, matches: &ArgMatches<'_>) -> Result<Option<Job>, AllocError>
    ensures { IfOk result (λ r. r ≡ audit_job (rows_of (found_of matches.now))) }
{
    match word_of(alloc, matches, "book")? {
        Some(book) => Ok(Some(Job::Audit { book })),
        None => Ok(None),
    }
}

fn migrate_from(alloc: Global, matches: &ArgMatches<'_>) -> Result<Option<Job>, AllocError>
    ensures { IfOk result (λ r. r ≡ migrate_job (rows_of (found_of matches.now))) }
{
    match word_of(alloc, matches, "book")? {
        Some(book) => Ok(Some(Job::Migrate { book })),
        None => Ok(None),
    }
}

fn serve_from(alloc: Global, matches: &ArgMatches<'_>) -> Result<Option<Job>, AllocError>
    ensures { IfOk result (λ r. r ≡ serve_job (rows_of (found_of matches.now))) }
{
    let book = word_of(alloc, matches, "book")?;
    let port = number_of(matches, "port");
    let streams = count_of(matches, "streams");
    match (book, port, streams) {
        (Some(book), Some(port), Some(streams)) => Ok(Some(Job::Serve {
            book,
            port,
            streams,
        })),
        _ => Ok(None),
    }
}

fn job_from(alloc: Global, name: &str, matches: &ArgMatches<'_>) -> Result<Option<Job>, AllocError>
    ensures { IfOk result (λ r. r ≡ job_named (name.now, rows_of (found_of matches.now))) }
{
    match name {
        "total" => Ok(Some(Job::Total)),
        "init" => init_from(alloc, matches),
        "import" => import_from(alloc, matches),
        "export" => export_from(alloc, matches),
        "interruptions" => interruptions_from(alloc, matches),
        "table" => table_from(alloc, matches),
        "indices" => indices_from(alloc, matches),
        "audit" => audit_from(alloc, matches),
        "migrate" => migrate_from(alloc, matches),
        "serve" => serve_from(alloc, matches),
        _ => Ok(None),
    }
}

/// Returns the job that matched arguments name; None if no subcommand was matched.
pub(crate) fn matched_job(
    alloc: Global,
    matches: &ArgMatches<'_>,
) -> Result<Option<Job>, AllocError>
    ensures { IfOk result (λ r. r ≡ option_and_then job_named (subcommand_rows_of matches.now)) }
{
    match matches.subcommand() {
        Some((name, inner)) => job_from(alloc, name, inner),
        None => Ok(None),
    }
}
