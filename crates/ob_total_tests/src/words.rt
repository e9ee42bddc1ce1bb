//! Tests of the arguments of the command line.
use ob_cli::{By, Job, WrongWords, read_words};
use std::alloc::{AllocError, Global};
use std::process::Abort;

// What the program makes of arguments: a job, help, its version or a refusal; and the text of that.
fn answer(alloc: Global, words: &[&str]) -> Result<(&'static str, String), AllocError> {
    match read_words(alloc, words) {
        Ok(job) => Ok(("job", told(alloc, &job)?)),
        Err(WrongWords::Help(text)) => Ok(("help", text)),
        Err(WrongWords::Version(text)) => Ok(("version", text)),
        Err(WrongWords::Wrong(text)) => Ok(("wrong", text)),
        Err(WrongWords::Fault(_fault)) => Err(AllocError),
    }
}

fn told(alloc: Global, job: &Job) -> Result<String, AllocError> {
    match job {
        Job::Total => String::from_str(alloc, "total"),
        Job::Init {
            book,
            first,
            days,
            zone,
        } => {
            let (book, first, zone) = (book.as_str(), first.as_str(), zone.as_str());
            format!(in alloc; "init {book} {first} {days} {zone}")
        }
        Job::Import { book, input, whole } => {
            let word = if *whole { "import whole" } else { "import" };
            two_words(alloc, word, book.as_str(), input.as_str())
        }
        Job::Export { book, output } => two_words(alloc, "export", book.as_str(), output.as_str()),
        Job::Interruptions { book, output } => {
            two_words(alloc, "interruptions", book.as_str(), output.as_str())
        }
        Job::Table { book } => two_words(alloc, "table", book.as_str(), "-"),
        Job::Indices { book, by, over } => {
            let (book, by) = (book.as_str(), by_word(*by));
            format!(in alloc; "indices {book} {by} {over}")
        }
        Job::Audit { book } => two_words(alloc, "audit", book.as_str(), "-"),
        Job::Migrate { book } => two_words(alloc, "migrate", book.as_str(), "-"),
        Job::Serve {
            book,
            port,
            streams,
        } => {
            let book = book.as_str();
            format!(in alloc; "serve {book} {port} {streams}")
        }
    }
}

fn two_words(alloc: Global, job: &str, book: &str, other: &str) -> Result<String, AllocError> {
    format!(in alloc; "{job} {book} {other}")
}

fn by_word(by: By) -> &'static str {
    match by {
        By::Whole => "whole",
        By::Feeder => "feeder",
        By::Month => "month",
        By::Day => "day",
        By::Cause => "cause",
        By::Section => "section",
    }
}

// Arguments, and the job that they name with all that it is given.
const JOBS: &'static str = "\
outagebook total => total
outagebook init --first 2026-01-01 --days 31 --zone EST5 => init book.db 2026-01-01 31 EST5
outagebook init --zone=EST5 --days=65535 --book=a.db --first=2026-01-01 => init a.db 2026-01-01 65535 EST5
outagebook import rows.csv => import book.db rows.csv
outagebook import --whole rows.csv => import whole book.db rows.csv
outagebook import rows.csv --book=a.db --whole => import whole a.db rows.csv
outagebook export --book a.db moves.csv => export a.db moves.csv
outagebook interruptions rows.csv => interruptions book.db rows.csv
outagebook interruptions --book a.db rows.csv => interruptions a.db rows.csv
outagebook table => table book.db -
outagebook indices => indices book.db whole 300
outagebook indices --by=feeder --over 1 => indices book.db feeder 1
outagebook indices --by month --over=99999 --book a.db => indices a.db month 99999
outagebook indices --by=day => indices book.db day 300
outagebook indices --by cause => indices book.db cause 300
outagebook indices --by section => indices book.db section 300
outagebook audit => audit book.db -
outagebook audit --book=büch.db => audit büch.db -
outagebook migrate => migrate book.db -
outagebook migrate --book a.db => migrate a.db -
outagebook serve --port=8080 => serve book.db 8080 0
outagebook serve --port 0 --streams 1 => serve book.db 0 1
outagebook serve --streams=18446744073709551615 --port 65535 --book a.db => serve a.db 65535 18446744073709551615
";

// Arguments that are refused, and a text that the message contains.
const REFUSED: &'static str = "\
outagebook => Usage: outagebook
outagebook  => Usage: outagebook
outagebook totals => Usage: outagebook
outagebook total more => Usage: outagebook
outagebook total --fast => Usage: outagebook
outagebook --fast total => Usage: outagebook
outagebook table --version => Usage: outagebook
outagebook version => Usage: outagebook
outagebook --book=a.db table => Usage: outagebook
outagebook table a.db => Usage: outagebook
outagebook import --whole => <INPUT>
outagebook import --whole=true rows.csv => Usage: outagebook
outagebook interruptions => <OUTPUT>
outagebook interruptions a.csv b.csv => Usage: outagebook
outagebook indices --by=week => --by has to be one of: whole, feeder, month, day, cause, section
outagebook indices --over=0 => 0 is not in 1..=99999
outagebook indices --over=100000 => 100000 is not in 1..=99999
outagebook indices feeder => Usage: outagebook
outagebook audit --days=1 => Usage: outagebook
outagebook migrate a.db => Usage: outagebook
outagebook table --book=a --book=b => --book <FILE>
outagebook table --book => --book <FILE>
outagebook init => --first <DATE>
outagebook serve => --port <N>
outagebook serve --port => --port <N>
outagebook serve --port=65536 => 65536 is not in 0..=65535
outagebook serve --port=http => invalid value 'http' for '--port <N>'
outagebook serve --port=1 --streams=x => invalid value 'x' for '--streams <K>'
outagebook serve --port=1 --streams=18446744073709551616 => --streams <K>
outagebook serve --port=1 book.db => Usage: outagebook
outagebook init --days=1 --zone=EST5 => --first <DATE>
outagebook init --first=2026-01-01 --zone=EST5 => --days <N>
outagebook init --first=2026-01-01 --days=1 => --zone <TEXT>
outagebook init --first=2026-01-01 --zone=EST5 --days 65536 => 65536 is not in 0..=65535
outagebook init --first=2026-01-01 --zone=EST5 --days x => invalid value 'x' for '--days <N>'
outagebook init --first=2026-01-01 --zone=EST5 --days  => --days <N>
outagebook init --first=2026-01-01 --zone=EST5 --days 1.5 => invalid value '1.5' for '--days <N>'
outagebook init --first=2026-01-01 --zone=EST5 --days -1 => unexpected argument '-1'
";

// Arguments that ask for help, and a text that it contains.
const HELP: &'static str = "\
outagebook --help => total
outagebook --help => init
outagebook -h => table
outagebook help => audit
outagebook help => Writes the interruptions of a book's customers as CSV
outagebook help interruptions => The CSV file to write
outagebook help => Makes a book of version 1 one of version 2
outagebook help total => total
outagebook total --help => total
outagebook init --help => --days <N>
outagebook help init => --zone <TEXT>
outagebook table --help => [default: book.db]
outagebook audit -h => --book <FILE>
outagebook serve -h => --streams <K>
";

// The words of a line, with a space between them.
fn words_of<'t>(alloc: Global, line: &'t str) -> Result<Vec<&'t str>, AllocError> {
    let mut words = Vec::new(alloc);
    for word in line.split(' ') {
        words.push(word)?;
    }
    Ok(words)
}

// Checks what the program makes of the arguments of a line: the whole text that names a job, and a
// part of any other text.
fn is_answered(rt: &impl Abort, alloc: Global, kind: &str, line: &str) -> Result<(), AllocError> {
    let (words, wanted) = line.split_once(" => ").unwrap_or((line, ""));
    let (found, text) = answer(alloc, &words_of(alloc, words)?)?;
    assert!(rt; found == kind && text.contains(wanted), "{line}: {text}");
    assert!(rt; kind != "job" || text.as_str() == wanted, "{line}: {text}");
    Ok(())
}

fn are_answered(rt: &impl Abort, alloc: Global, kind: &str, lines: &str) -> Result<(), AllocError> {
    for line in lines.lines() {
        is_answered(rt, alloc, kind, line)?;
    }
    Ok(())
}

// The version that is printed: the program's, and that of its books.
const VERSION: &str = "outagebook 2 (books of version 2)\n";

#[test]
fn reads_jobs_refuses_words_and_shows_help(rt: HostRuntime) -> Result<(), AllocError> {
    for (kind, lines) in [("job", JOBS), ("wrong", REFUSED), ("help", HELP)] {
        are_answered(&rt, rt.alloc(), kind, lines)?;
    }
    let (kind, job) = answer(rt.alloc(), &["outagebook", "table", "--book", "a b.db"])?;
    assert!(rt; kind == "job" && job.as_str() == "table a b.db -");
    let (kind, text) = answer(rt.alloc(), &[])?;
    assert!(rt; kind == "wrong" && text.contains("Usage: outagebook"));
    Ok(())
}

#[test]
fn tells_its_version(rt: HostRuntime) -> Result<(), AllocError> {
    for words in [
        "outagebook --version",
        "outagebook -V",
        "outagebook --version table",
    ] {
        let (kind, text) = answer(rt.alloc(), &words_of(rt.alloc(), words)?)?;
        assert!(rt; kind == "version" && text.as_str() == VERSION);
    }
    Ok(())
}
