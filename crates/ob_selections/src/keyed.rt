//! The selections of a book by feeder, month, day, cause or section, each under its key.
ghost use Rattle.std.specs.Prelude.{◌≡◌, ◌≤◌, ◌<◌, IfErr, IfOk, IfSome, Some, length, option_map};
ghost use Rattle.ob_base.specs.Stop.{out_of_memory};
ghost use Rattle.ob_book.specs.Views as views;
ghost use Rattle.ob_index.specs.declared.figures.Which.TheVariants.{All};
ghost use Rattle.ob_time.specs.Calendar.{day_count};
ghost use Rattle.ob_selections.specs.Listed.{Keyed as AKeyed, cause_selection, day_selection, feeder_selection, month_selection, places_of as count_of_places, section_selection, selection_at as keyed_at};
ghost use Rattle.ob_selections.specs.Selections.{IsSelection, whole};

use crate::months::{begins_month, day_text, month_end, month_text};
use crate::selection::{By, Selection};
use itoa::Buffer;
use ob_base::{Second, Stop};
use ob_book::Book;
use ob_index::Which;
use ob_net::Net;
use ob_post::{CAUSES, FEEDERS};
use ob_sweep::Timeline;
use std::alloc::Global;

/// A selection under a key.
#[derive(Drop)]
pub struct Keyed {
    /// A feeder's number, a month, a date, the name of a cause or a section, or `whole`.
    pub key: Vec<u8>,
    /// The selection, over all interruptions of its days.
    pub selection: Selection,
}

/// How many numbers there are to look at: of feeders, days, causes or nodes.
pub fn places_of<T: Timeline>(book: &Book<T>, by: By) -> u16
    ensures { result ≡ count_of_places book.now.state by }
{
    match by {
        By::Whole => 1,
        By::Feeder => FEEDERS + 1,
        By::Month | By::Day => book.period().days(),
        By::Cause => CAUSES,
        By::Section => book.net().nodes(),
    }
}

/// The selection of a number, with this longest momentary interruption; `None` if there is no such
/// feeder, month, day, cause or section. The error is a failed allocation.
pub fn selection_at<T: Timeline>(
    alloc: Global,
    book: &Book<T>,
    by: By,
    longest: Second,
    place: u16,
) -> Result<Option<Keyed>, Stop>
    requires { place < count_of_places book.now.state by }
    ensures keyed { IfOk result (λ keyed. option_map (λ k. (k.key.items, k.selection)) keyed
        ≡ keyed_at book.now.state by longest place) }
    ensures days { IfOk result (λ keyed. IfSome keyed
        (λ k. IsSelection book.now.state k.selection)) }
    ensures err { IfErr result (λ e. e ≡ out_of_memory) }
{
    match by {
        By::Whole => under_key(alloc, b"whole", whole_book(book, longest)),
        By::Feeder => feeder_at(alloc, book, longest, place as u8),
        By::Month => month_at(alloc, book, longest, place),
        By::Day => day_at(alloc, book, longest, place),
        By::Cause => cause_at(alloc, book, longest, place as u8),
        By::Section => section_at(alloc, book, longest, place),
    }
}

// All interruptions of a book.
fn whole_book<T: Timeline>(book: &Book<T>, longest: Second) -> Selection
    ensures whole { result ≡ whole book.now.state All longest }
    ensures days { IsSelection book.now.state result }
{
    Selection {
        feeder: None,
        section: None,
        cause: None,
        day: None,
        first: 0,
        end: book.period().days(),
        which: Which::All,
        longest,
    }
}

fn under_key(alloc: Global, key: &[u8], selection: Selection) -> Result<Option<Keyed>, Stop>
    ensures keyed { let wanted : AKeyed = (key.now, selection) in IfOk result (λ keyed.
        option_map (λ k. (k.key.items, k.selection)) keyed ≡ Some wanted) }
    ensures same { IfOk result (λ keyed. IfSome keyed (λ k. k.selection ≡ selection)) }
    ensures err { IfErr result (λ e. e ≡ out_of_memory) }
{
    let mut bytes = Vec::new(alloc);
    bytes.extend_from_slice(key)?;
    Ok(Some(Keyed {
        key: bytes,
        selection,
    }))
}

// The interruptions of the customers of a feeder; `None` if no section has it.
fn feeder_at<T: Timeline>(
    alloc: Global,
    book: &Book<T>,
    longest: Second,
    feeder: u8,
) -> Result<Option<Keyed>, Stop>
    ensures keyed { IfOk result (λ keyed. option_map (λ k. (k.key.items, k.selection)) keyed
        ≡ feeder_selection book.now.state longest feeder) }
    ensures days { IfOk result (λ keyed. IfSome keyed
        (λ k. IsSelection book.now.state k.selection)) }
    ensures err { IfErr result (λ e. e ≡ out_of_memory) }
{
    if !has_feeder(book.net(), feeder) {
        return Ok(None);
    }
    let selection = Selection {
        feeder: Some(feeder),
        ..whole_book(book, longest)
    };
    under_key(alloc, Buffer::new().format(feeder).as_bytes(), selection)
}

// Whether some section has this home feeder.
fn has_feeder(net: &Net, feeder: u8) -> bool
    ensures { result ≡ views.has_section net.now.network feeder }
{
    (0..net.nodes()).any(|node| net.feeder_of(node) == Some(feeder))
}

// The interruptions that begin in the month that begins on a day; `None` if none begins on it.
fn month_at<T: Timeline>(
    alloc: Global,
    book: &Book<T>,
    longest: Second,
    day: u16,
) -> Result<Option<Keyed>, Stop>
    requires { day < day_count book.now.state.period }
    ensures keyed { IfOk result (λ keyed. option_map (λ k. (k.key.items, k.selection)) keyed
        ≡ month_selection book.now.state longest day) }
    ensures days { IfOk result (λ keyed. IfSome keyed
        (λ k. IsSelection book.now.state k.selection)) }
    ensures err { IfErr result (λ e. e ≡ out_of_memory) }
{
    if !begins_month(book, day)? {
        return Ok(None);
    }
    let selection = Selection {
        first: day,
        end: month_end(book, day)?,
        ..whole_book(book, longest)
    };
    let key = month_text(alloc, book, day)?;
    Ok(Some(Keyed { key, selection }))
}

// The interruptions that begin on a day, over the customers served of the whole period.
fn day_at<T: Timeline>(
    alloc: Global,
    book: &Book<T>,
    longest: Second,
    day: u16,
) -> Result<Option<Keyed>, Stop>
    requires { day < day_count book.now.state.period }
    ensures keyed { IfOk result (λ keyed. option_map (λ k. (k.key.items, k.selection)) keyed
        ≡ day_selection book.now.state longest day) }
    ensures days { IfOk result (λ keyed. IfSome keyed
        (λ k. IsSelection book.now.state k.selection)) }
    ensures err { IfErr result (λ e. e ≡ out_of_memory) }
{
    let selection = Selection {
        day: Some(day),
        ..whole_book(book, longest)
    };
    let key = day_text(alloc, book, day)?;
    Ok(Some(Keyed { key, selection }))
}

// The interruptions of a cause; `None` if no cause has the code.
fn cause_at<T: Timeline>(
    alloc: Global,
    book: &Book<T>,
    longest: Second,
    code: u8,
) -> Result<Option<Keyed>, Stop>
    ensures keyed { IfOk result (λ keyed. option_map (λ k. (k.key.items, k.selection)) keyed
        ≡ cause_selection book.now.state longest code) }
    ensures days { IfOk result (λ keyed. IfSome keyed
        (λ k. IsSelection book.now.state k.selection)) }
    ensures err { IfErr result (λ e. e ≡ out_of_memory) }
{
    let Some(name) = book.cause_name(code) else {
        return Ok(None);
    };
    let selection = Selection {
        cause: Some(code),
        ..whole_book(book, longest)
    };
    under_key(alloc, name.bytes(), selection)
}

// The interruptions of the customers of a section; `None` if the node is none.
fn section_at<T: Timeline>(
    alloc: Global,
    book: &Book<T>,
    longest: Second,
    node: u16,
) -> Result<Option<Keyed>, Stop>
    requires { node < length book.now.state.network.nodes }
    ensures keyed { IfOk result (λ keyed. option_map (λ k. (k.key.items, k.selection)) keyed
        ≡ section_selection book.now.state longest node) }
    ensures days { IfOk result (λ keyed. IfSome keyed
        (λ k. IsSelection book.now.state k.selection)) }
    ensures err { IfErr result (λ e. e ≡ out_of_memory) }
{
    let net = book.net();
    if net.feeder_of(node).is_none() {
        return Ok(None);
    }
    let selection = Selection {
        section: Some(node),
        ..whole_book(book, longest)
    };
    under_key(alloc, net.node_name(node).bytes(), selection)
}
