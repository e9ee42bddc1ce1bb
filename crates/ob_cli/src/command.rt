//! The definition of the command line, against which `clap` matches the arguments.
ghost use Rattle.std.specs.Prelude.{◌≡◌, IfOk, codes, false};
ghost use Rattle.clap.specs.Words.{app_of, rule_of};
ghost use Rattle.clap.specs.declared.builder.command.Command.TheViews.{out-Command};
ghost use Rattle.ob_cli.specs.Commands.{audit_app, bare_app, book_rule, by_rule, count_rule, default_streams, export_app};
ghost use Rattle.ob_cli.specs.Commands.{import_app, indices_app, init_app, interruptions_app, migrate_app, number_rule, outagebook_app, over_book, over_rule, required_rule};
ghost use Rattle.ob_cli.specs.Commands.{flag_rule, serve_app, table_app, total_app, word_rule};

use clap::{Arg, ArgAction, Command, value_parser};
use std::alloc::{AllocError, Global};

fn book_option<'a>(alloc: Global) -> Arg<'a>
    ensures rule { rule_of result ≡ book_rule }
    ensures local { result.global ≡ false }
{
    Arg::new(alloc, "book")
        .long("book")
        .value_name("FILE")
        .default_value("book.db")
        .help("The file of the book")
}

fn required_option<'a>(alloc: Global, name: &'a str, value: &'a str, help: &'a str) -> Arg<'a>
    ensures rule { rule_of result ≡ required_rule name.entry.now }
    ensures local { result.global ≡ false }
{
    Arg::new(alloc, name)
        .long(name)
        .value_name(value)
        .required(true)
        .help(help)
}

fn number_option<'a>(alloc: Global, name: &'a str, help: &'a str) -> Arg<'a>
    ensures rule { rule_of result ≡ number_rule name.entry.now }
    ensures local { result.global ≡ false }
{
    required_option(alloc, name, "N", help).value_parser(value_parser!(u16))
}

fn streams_option<'a>(alloc: Global) -> Arg<'a>
    ensures rule { rule_of result ≡ count_rule (codes "streams") default_streams }
    ensures local { result.global ≡ false }
{
    Arg::new(alloc, "streams")
        .long("streams")
        .value_name("K")
        .default_value("0")
        .value_parser(value_parser!(u64))
        .help("How many streams to serve before it ends; 0 for no bound")
}

fn by_option<'a>(alloc: Global) -> Arg<'a>
    ensures rule { rule_of result ≡ by_rule }
    ensures local { result.global ≡ false }
{
    Arg::new(alloc, "by")
        .long("by")
        .value_name("WORD")
        .default_value("whole")
        .help("A line for each: feeder, month, day, cause, section, or whole for the whole book")
}

fn over_option<'a>(alloc: Global) -> Arg<'a>
    ensures rule { rule_of result ≡ over_rule }
    ensures local { result.global ≡ false }
{
    Arg::new(alloc, "over")
        .long("over")
        .value_name("SECONDS")
        .default_value("300")
        .value_parser(value_parser!(u64).range(1..=99_999))
        .help("The longest momentary interruption; a longer one is sustained")
}

/// An option without a value.
fn flag_option<'a>(alloc: Global, name: &'a str, help: &'a str) -> Arg<'a>
    ensures rule { rule_of result ≡ flag_rule name.entry.now }
    ensures local { result.global ≡ false }
{
    Arg::new(alloc, name)
        .long(name)
        .action(ArgAction::SetTrue)
        .help(help)
}

/// A positional argument that names a file.
fn file_word<'a>(alloc: Global, name: &'a str, help: &'a str) -> Arg<'a>
    ensures rule { rule_of result ≡ word_rule name.entry.now }
    ensures local { result.global ≡ false }
{
    Arg::new(alloc, name).required(true).help(help)
}

fn total_command<'a>(alloc: Global) -> Command<'a>
    ensures app { app_of result ≡ total_app }
    ensures local { (out-Command result).has_globals ≡ false }
{
    Command::new(alloc, "total").about("Counts the customer-seconds of a text on standard input")
}

/// A subcommand that works on a book.
fn book_command<'a>(alloc: Global, name: &'a str, about: &'a str) -> Result<Command<'a>, AllocError>
    ensures app { IfOk result (λ c. app_of c ≡ over_book name.entry.now) }
    ensures local { IfOk result (λ c. (out-Command c).has_globals ≡ false) }
{
    Command::new(alloc, name)
        .about(about)
        .arg(book_option(alloc))
}

fn init_command<'a>(alloc: Global) -> Result<Command<'a>, AllocError>
    ensures app { IfOk result (λ c. app_of c ≡ init_app) }
    ensures local { IfOk result (λ c. (out-Command c).has_globals ≡ false) }
{
    book_command(alloc, "init", "Makes the book of a period")?
        .arg(required_option(
            alloc,
            "first",
            "DATE",
            "The first day of the period, as 2026-01-01",
        ))?
        .arg(number_option(alloc, "days", "How many days the period has"))?
        .arg(required_option(alloc, "zone", "TEXT", "The time zone, as a POSIX rule"))
}

fn import_command<'a>(alloc: Global) -> Result<Command<'a>, AllocError>
    ensures app { IfOk result (λ c. app_of c ≡ import_app) }
    ensures local { IfOk result (λ c. (out-Command c).has_globals ≡ false) }
{
    book_command(alloc, "import", "Acts the commands of a CSV file on a book")?
        .arg(flag_option(alloc, "whole", "Adds all rows of the file, or none"))?
        .arg(file_word(alloc, "INPUT", "The CSV file to read"))
}

fn export_command<'a>(alloc: Global) -> Result<Command<'a>, AllocError>
    ensures app { IfOk result (λ c. app_of c ≡ export_app) }
    ensures local { IfOk result (λ c. (out-Command c).has_globals ≡ false) }
{
    book_command(
        alloc,
        "export",
        "Writes what a book's commands moved as CSV",
    )?
    .arg(file_word(alloc, "OUTPUT", "The CSV file to write"))
}

fn interruptions_command<'a>(alloc: Global) -> Result<Command<'a>, AllocError>
    ensures app { IfOk result (λ c. app_of c ≡ interruptions_app) }
    ensures local { IfOk result (λ c. (out-Command c).has_globals ≡ false) }
{
    book_command(
        alloc,
        "interruptions",
        "Writes the interruptions of a book's customers as CSV",
    )?
    .arg(file_word(alloc, "OUTPUT", "The CSV file to write"))
}

fn table_command<'a>(alloc: Global) -> Result<Command<'a>, AllocError>
    ensures app { IfOk result (λ c. app_of c ≡ table_app) }
    ensures local { IfOk result (λ c. (out-Command c).has_globals ≡ false) }
{
    book_command(alloc, "table", "Prints the annual table of a book")
}

fn indices_command<'a>(alloc: Global) -> Result<Command<'a>, AllocError>
    ensures app { IfOk result (λ c. app_of c ≡ indices_app) }
    ensures local { IfOk result (λ c. (out-Command c).has_globals ≡ false) }
{
    book_command(
        alloc,
        "indices",
        "Prints the indices of a book by feeder, month, day, cause or section as CSV",
    )?
    .arg(by_option(alloc))?
    .arg(over_option(alloc))
}

fn audit_command<'a>(alloc: Global) -> Result<Command<'a>, AllocError>
    ensures app { IfOk result (λ c. app_of c ≡ audit_app) }
    ensures local { IfOk result (λ c. (out-Command c).has_globals ≡ false) }
{
    book_command(
        alloc,
        "audit",
        "Compares the tables of a book with its commands",
    )
}

fn migrate_command<'a>(alloc: Global) -> Result<Command<'a>, AllocError>
    ensures app { IfOk result (λ c. app_of c ≡ migrate_app) }
    ensures local { IfOk result (λ c. (out-Command c).has_globals ≡ false) }
{
    book_command(
        alloc,
        "migrate",
        "Makes a book of version 1 one of version 2",
    )
}

fn serve_command<'a>(alloc: Global) -> Result<Command<'a>, AllocError>
    ensures app { IfOk result (λ c. app_of c ≡ serve_app) }
    ensures local { IfOk result (λ c. (out-Command c).has_globals ≡ false) }
{
    book_command(
        alloc,
        "serve",
        "Serves a book over HTTP on 127.0.0.1, one stream after another",
    )?
    .arg(number_option(
        alloc,
        "port",
        "The port to listen at; 0 for one that is free",
    ))?
    .arg(streams_option(alloc))
}

/// The version of the program, and that of the books that it keeps.
const VERSION: &str = "2 (books of version 2)";

fn bare_command<'a>(alloc: Global) -> Command<'a>
    ensures app { app_of result ≡ bare_app }
{
    Command::new(alloc, "outagebook")
        .version(VERSION)
        .about("Keeps the outages of a network, and prints its reliability indices")
        .subcommand_required(true)
}

/// The command line of the program: one subcommand for each job.
pub(crate) fn outagebook_command<'a>(alloc: Global) -> Result<Command<'a>, AllocError>
    ensures { IfOk result (λ c. app_of c ≡ outagebook_app) }
{
    bare_command(alloc)
        .subcommand(total_command(alloc))?
        .subcommand(init_command(alloc)?)?
        .subcommand(import_command(alloc)?)?
        .subcommand(export_command(alloc)?)?
        .subcommand(interruptions_command(alloc)?)?
        .subcommand(table_command(alloc)?)?
        .subcommand(indices_command(alloc)?)?
        .subcommand(audit_command(alloc)?)?
        .subcommand(migrate_command(alloc)?)?
        .subcommand(serve_command(alloc)?)
}
