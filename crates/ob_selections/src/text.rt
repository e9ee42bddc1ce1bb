//! The indices of a book by feeder, month, day, cause or section, as CSV.
ghost use Rattle.std.specs.Prelude.{◌≡◌, ◌++◌, ◌<◌, IfErr, IfOk, OnOk};
ghost use Rattle.std.specs.List.{flat_map};
ghost use Rattle.ob_base.specs.Stop.{out_of_memory};
ghost use Rattle.ob_selections.specs.IndexText.{indices_text_of, key_lines, place_lines, selection_line, set_word};
ghost use Rattle.ob_selections.specs.Listed.{places_of as count_of_places, selections_by};
ghost use Rattle.ob_selections.specs.Selections.{IsSelection, is_whole_period as is_whole};

use crate::counting::figures_of;
use crate::keyed::{Keyed, places_of, selection_at};
use crate::line::{push_header, push_line};
use crate::selection::{By, Selection};
use ob_base::{Second, Stop};
use ob_book::Book;
use ob_index::Which;
use ob_sweep::Timeline;
use std::alloc::Global;

/// The indices of a book as CSV, where an interruption of at most `longest` seconds is momentary
/// and a longer one is sustained: the names of the columns, and then two lines for each feeder,
/// month, day, cause or section, over all interruptions and over those that don't begin on a major event
/// day. The error is a failed allocation.
pub fn indices_text<T: Timeline>(
    alloc: Global,
    book: &Book<T>,
    by: By,
    longest: Second,
) -> Result<Vec<u8>, Stop>
    ensures text { IfOk result (λ text. text.items ≡ indices_text_of book.now.state by longest) }
    ensures err { IfErr result (λ e. e ≡ out_of_memory) }
{
    let mut text = Vec::new(alloc);
    push_header(&mut text)?;
    push_all(alloc, &mut text, book, by, longest)?;
    Ok(text)
}

// Appends the lines of all selections.
fn push_all<T: Timeline>(
    alloc: Global,
    text: &mut Vec<u8>,
    book: &Book<T>,
    by: By,
    longest: Second,
) -> Result<(), Stop>
    ensures ok { OnOk result (text.new.items ≡ text.old.items
        ++ flat_map (key_lines book.now.state) (selections_by book.now.state by longest)) }
    ensures err { IfErr result (λ e. e ≡ out_of_memory) }
{
    for place in 0..places_of(book, by) {
        push_place(alloc, text, book, by, longest, place)?;
    }
    Ok(())
}

// Appends the lines of the selection of a number, if there is one.
fn push_place<T: Timeline>(
    alloc: Global,
    text: &mut Vec<u8>,
    book: &Book<T>,
    by: By,
    longest: Second,
    place: u16,
) -> Result<(), Stop>
    requires { place < count_of_places book.now.state by }
    ensures ok { OnOk result (text.new.items ≡ text.old.items
        ++ place_lines book.now.state by longest place) }
    ensures err { IfErr result (λ e. e ≡ out_of_memory) }
{
    match selection_at(alloc, book, by, longest, place)? {
        Some(keyed) => push_both(text, book, &keyed),
        None => Ok(()),
    }
}

// Appends the lines of a key.
fn push_both<T: Timeline>(text: &mut Vec<u8>, book: &Book<T>, keyed: &Keyed) -> Result<(), Stop>
    requires { IsSelection book.now.state keyed.now.selection }
    ensures ok { OnOk result (text.new.items ≡ text.old.items
        ++ key_lines book.now.state (keyed.now.key.items, keyed.now.selection)) }
    ensures err { IfErr result (λ e. e ≡ out_of_memory) }
{
    let all = Selection {
        which: Which::All,
        ..keyed.selection
    };
    let unmarked = Selection {
        which: Which::Unmarked,
        ..keyed.selection
    };
    push_selection(text, book, &keyed.key, &all)?;
    push_selection(text, book, &keyed.key, &unmarked)
}

// Appends the line of a selection under a key.
fn push_selection<T: Timeline>(
    text: &mut Vec<u8>,
    book: &Book<T>,
    key: &[u8],
    selection: &Selection,
) -> Result<(), Stop>
    requires selection { IsSelection book.now.state selection.now }
    ensures ok { OnOk result (text.new.items ≡ text.old.items
        ++ selection_line book.now.state key.now selection.now) }
    ensures err { IfErr result (λ e. e ≡ out_of_memory) }
{
    let figures = figures_of(book, selection);
    let all_days = is_whole_period(book, selection);
    push_line(text, key, word_of(selection.which), all_days, &figures)
}

// Whether the days of a selection are all days of the period.
fn is_whole_period<T: Timeline>(book: &Book<T>, selection: &Selection) -> bool
    ensures { result ≡ is_whole book.now.state selection.now }
{
    selection.first == 0 && selection.end == book.period().days()
}

fn word_of(which: Which) -> &'static [u8]
    ensures { result.now ≡ set_word which }
{
    match which {
        Which::All => b"all",
        Which::Unmarked => b"unmarked",
    }
}
