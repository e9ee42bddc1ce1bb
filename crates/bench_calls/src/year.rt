//! A book's year, replayed from the body texts of its commands.
ghost use Rattle.std.specs.Prelude.{◌≡◌, ◌⊎◌, ◌∷◌, ◌++◌, IfSome, take};
ghost use Rattle.ob_state.specs.State.{BookState};
ghost use Rattle.ob_book.specs.Views.{annual_table_of_book, without_supply_of_book};
ghost use Rattle.bench_calls.specs.Years.{IsStep, IsYear};

use ob_book::Book;
use ob_command::read_body;
use ob_post::Dim;
use ob_sweep::Windowed;
use ob_time::Period;
use std::alloc::Global;

/// Replays a year on a book of the 366 days from 2024-01-01 in UTC, whose outage intervals are
/// updated in windows (`Windowed`). The text has the body texts of its commands, each followed by a
/// line feed. It answers all customer-seconds without supply, and writes how often the network was
/// searched.
///
/// It answers 0 if memory is refused, if a line is no command, or if a command isn't accepted in
/// its turn.
#[unsafe(no_mangle)]
pub extern "C" fn bench_year(alloc: Global, text: &[u8], searches: &mut u64) -> u64
    ensures { (result ≡ 0) ⊎ ((b : BookState) × IsYear text.now b
        × (result ≡ without_supply_of_book b)) }
{
    let Some(book) = book_of(alloc, text) else {
        return 0;
    };
    *searches = u64::try_from(book.net().searches()).unwrap_or(u64::MAX);
    book.postings().total(Dim::Cause)
}

/// Replays a year as `bench_year` does, writes its annual table at the front of `table` and answers
/// the length of the written table.
///
/// It answers 0 if there is no such year, if memory is refused, or if `table` is too short.
#[unsafe(no_mangle)]
pub extern "C" fn bench_year_table(alloc: Global, text: &[u8], table: &mut [u8]) -> usize
    ensures { (result ≡ 0) ⊎ ((b : BookState) × IsYear text.now b
        × (take result table.new ≡ annual_table_of_book b)) }
{
    let Some(book) = book_of(alloc, text) else {
        return 0;
    };
    match book.annual_text() {
        Ok(shown) => copied(&shown, table),
        Err(_) => 0,
    }
}

/// Copies a text to the front of `place`, and answers its length, or 0 if it doesn't fit.
fn copied(text: &[u8], place: &mut [u8]) -> usize
    ensures { (result ≡ 0) ⊎ (take result place.new ≡ text.now) }
{
    if text.len() > place.len() {
        return 0;
    }
    place[..text.len()].copy_from_slice(text);
    text.len()
}

/// The book after the commands of these lines.
fn book_of(alloc: Global, text: &[u8]) -> Option<Book<Windowed>>
    ensures { IfSome result (λ b. IsYear text.now b.state) }
{
    let Ok(year) = Period::from_text(alloc, b"2024-01-01", 366, b"UTC0") else {
        return None;
    };
    let Ok(mut book) = Book::new(alloc, year) else {
        return None;
    };
    let mut rest = text;
    for _ in 0..text.len() {
        let Some((line, more)) = cut_line(rest) else {
            break;
        };
        act(&mut book, line)?;
        rest = more;
    }
    if rest.is_empty() { Some(book) } else { None }
}

/// The first line of a text, and the rest after its line feed.
#[tactic(auto, using(crate::proofs::Lines::cut_at))]
fn cut_line(text: &[u8]) -> Option<(&[u8], &[u8])>
    ensures { IfSome result (λ p. text.now ≡ p.0.now ++ 10 ∷ p.1.now) }
{
    let end = text.iter().position(|byte| *byte == b'\n')?;
    Some((&text[..end], &text[end + 1..]))
}

/// Applies the command of a line.
fn act(book: &mut Book<Windowed>, line: &[u8]) -> Option<()>
    ensures { IfSome result (λ _. IsStep line.now book.old.state book.new.state) }
{
    let command = read_body(line)?;
    let Ok(plan) = book.decide(&command) else {
        return None;
    };
    book.adopt(plan);
    Some(())
}
