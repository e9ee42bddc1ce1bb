//! The views of a book, and the replies that show them.
ghost use Rattle.std.specs.Prelude.{◌≡◌, None, IfOk, IfErr, option_map};
ghost use Rattle.ob_base.specs.Stop.{out_of_memory};
ghost use Rattle.ob_sheet.specs.Order.{entry_of};
ghost use Rattle.ob_http_routes.specs.Answers.{found as found_of, got, media_of, name_of_device, shown_entry, view_text as view_text_of};
ghost use Rattle.ob_http_routes.specs.Answering.{Gives, Makes, Serves};

use crate::reply::{ReplyText, accepted_reply, bare_reply, shown_reply};
use crate::routes::View;
use ob_base::{Fault, Name, Stop};
use ob_book::Book;
use ob_http_replies::{MediaType, Status, entry_text};
use ob_sheet::Entry;
use ob_store::{Alter, Keeper};
use ob_sweep::Timeline;
use std::alloc::Global;

/// Returns the entry of a number and the name of its device; None if there is no such entry.
fn named_entry<T: Timeline>(book: &Book<T>, no: u32) -> Option<(Entry, Name)>
    ensures { result ≡ option_map (λ e. (e, name_of_device book.now.state e.device))
        (entry_of book.now.state.entries «no») }
{
    // This call's contract states that the devices of entries exist.
    let _ = book.accepted();
    let entry = book.sheet().entry(no)?;
    let device = book.net().device_name(entry.device);
    Some((entry, device))
}

/// Returns the text of the entry of a number; None if there is no such entry.
fn entry_shown<T: Timeline>(alloc: Global, book: &Book<T>, no: u32) -> Result<Option<Vec<u8>>, Stop>
    ensures text { IfOk result (λ text. option_map (λ t. t.items) text
        ≡ option_map (shown_entry book.now.state) (entry_of book.now.state.entries «no»)) }
    ensures err { IfErr result (λ stop. stop ≡ out_of_memory) }
{
    match named_entry(book, no) {
        Some(found) => Ok(Some(entry_text(alloc, &found.0, &found.1)?)),
        None => Ok(None),
    }
}

/// Returns the text of a view of a book.
fn view_text<T: Timeline>(
    alloc: Global,
    book: &Book<T>,
    view: View,
) -> Result<Option<Vec<u8>>, Stop>
    ensures text { IfOk result (λ text. option_map (λ t. t.items) text
        ≡ view_text_of book.now.state view) }
    ensures err { IfErr result (λ stop. stop ≡ out_of_memory) }
{
    match view {
        View::Totals => Ok(Some(book.totals_text()?)),
        View::Indices => Ok(Some(book.indices_text()?)),
        View::Table => Ok(Some(book.annual_text()?)),
        View::Entry(no) => entry_shown(alloc, book, no),
        View::Supply(second) => book.supply_text(second),
    }
}

/// The media type of a view.
fn media_of_view(view: View) -> MediaType
    ensures { result ≡ media_of view }
{
    match view {
        View::Table => MediaType::PlainText,
        _ => MediaType::Json,
    }
}

/// Returns the reply that shows a view of a book.
fn show<T: Timeline>(
    alloc: Global,
    book: &Book<T>,
    view: View,
    closes: bool,
) -> Result<ReplyText, Fault>
    ensures { Makes (found_of (media_of view) (view_text_of book.now.state view)) closes result }
{
    match view_text(alloc, book, view) {
        Ok(Some(body)) => shown_reply(alloc, media_of_view(view), &body, closes),
        Ok(None) => Ok(bare_reply(Status::NotFound, closes)),
        Err(_) => Err(Fault::OutOfMemory),
    }
}

/// Returns the reply that shows a view of the keeper's book. `Fault::Reopen` if there is none.
pub(crate) fn show_view<S: Alter, T: Timeline>(
    alloc: Global,
    keeper: &Keeper<S, T>,
    view: View,
    closes: bool,
) -> Result<ReplyText, Fault>
    ensures { Serves keeper.now keeper.now (λ b. Gives keeper.now b
        (got b (Route.View view)) closes result) None closes result }
{
    match keeper.book() {
        Some(book) => show(alloc, book, view, closes),
        None => Err(Fault::Reopen),
    }
}

/// Returns the reply that shows the stored reply of the command of a number. `Fault::Reopen` if
/// there is no book.
pub(crate) fn show_command<S: Alter, T: Timeline>(
    alloc: Global,
    keeper: &mut Keeper<S, T>,
    no: u32,
    closes: bool,
) -> Result<ReplyText, Fault>
    ensures { Serves keeper.old keeper.new (λ b. Gives keeper.new b
        (got b (Route.Command «no»)) closes result) None closes result }
{
    match keeper.reply_of(no) {
        Ok(Some(reply)) => accepted_reply(alloc, &reply, closes),
        Ok(None) => Ok(bare_reply(Status::NotFound, closes)),
        Err(Stop::Refused(_)) => Err(Fault::OutOfMemory),
        Err(Stop::Fault(fault)) => Err(fault),
    }
}

ghost use Rattle.ob_http_routes.specs.declared.routes.Route.{Route};
