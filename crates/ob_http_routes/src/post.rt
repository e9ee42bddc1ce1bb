//! Applies commands and imports, and replies to them.
ghost use Rattle.std.specs.Prelude.{Some, None, IsSome};
ghost use Rattle.ob_store.specs.Acting.{under};
ghost use Rattle.ob_store.specs.Keepers.{book_of};
ghost use Rattle.ob_http_routes.specs.Answering.{ActGives, RouteAnswered, Serves};
ghost use Rattle.ob_http_requests.specs.declared.framing.Method.{Method};
ghost use Rattle.ob_http_routes.specs.declared.routes.Route.{Route};

use crate::reply::{ReplyText, accepted_reply, refused_reply, report_reply};
use ob_base::{Fault, Ref, Stop};
use ob_book::Command;
use ob_http_replies::read_command;
use ob_import::import_text;
use ob_store::{Alter, Keeper};
use ob_sweep::Timeline;
use std::alloc::Global;

/// Applies a command under a reference, and replies to it.
fn act<S: Alter, T: Timeline>(
    alloc: Global,
    keeper: &mut Keeper<S, T>,
    reference: Ref,
    command: Command,
    closes: bool,
) -> Result<ReplyText, Fault>
    requires { IsSome (book_of keeper.old) }
    ensures { Serves keeper.old keeper.new (λ b. ActGives keeper.new b
        (under reference command) closes result) None closes result }
{
    match keeper.act(reference, command) {
        Ok(reply) => accepted_reply(alloc, &reply, closes),
        Err(Stop::Refused(refusal)) => refused_reply(alloc, &refusal, closes),
        Err(Stop::Fault(fault)) => Err(fault),
    }
}

/// Applies the command in a body, and replies to it. `Fault::Reopen` if there is no book.
pub(crate) fn post_command<S: Alter, T: Timeline>(
    alloc: Global,
    keeper: &mut Keeper<S, T>,
    body: &[u8],
    closes: bool,
) -> Result<ReplyText, Fault>
    ensures { Serves keeper.old keeper.new (λ b. RouteAnswered keeper.new b Method.Post
        (Some Route.Commands) body.now closes result) None closes result }
{
    if keeper.book().is_none() {
        return Err(Fault::Reopen);
    }
    match read_command(alloc, body) {
        Ok(said) => act(alloc, keeper, said.0, said.1, closes),
        Err(Stop::Refused(refusal)) => refused_reply(alloc, &refusal, closes),
        Err(Stop::Fault(_)) => Err(Fault::OutOfMemory),
    }
}

/// Imports the commands in a body, and replies with the report. `Fault::Reopen` if there is no
/// book.
pub(crate) fn post_import<S: Alter, T: Timeline>(
    alloc: Global,
    keeper: &mut Keeper<S, T>,
    body: &[u8],
    closes: bool,
) -> Result<ReplyText, Fault>
    ensures { Serves keeper.old keeper.new (λ b. RouteAnswered keeper.new b Method.Post
        (Some Route.Import) body.now closes result) None closes result }
{
    if keeper.book().is_none() {
        return Err(Fault::Reopen);
    }
    match import_text(alloc, body, keeper) {
        Ok(report) => report_reply(alloc, report, closes),
        Err(stopped) => Err(stopped.fault),
    }
}
