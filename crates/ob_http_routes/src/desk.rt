//! Answers one request.
ghost use Rattle.std.specs.Prelude.{◌≡◌, ◌↔◌, Some, None, Err, IsSome, IfSome, IfErr};
ghost use Rattle.ob_store.specs.Calls.{IfHeld, TellsFaults, WasClean};
ghost use Rattle.ob_store.specs.Keepers.{OnlySearches, book_of};
ghost use Rattle.ob_http_requests.specs.Reading.{message_of};
ghost use Rattle.ob_http_routes.specs.Answers.{AsksPlan, bookless, bookless_at, got};
ghost use Rattle.ob_http_routes.specs.Answering.{Answered, Gives, IsAnswerFault, IsReplyOf, RouteAnswered, Serves, Unopened};

use crate::plan::post_plan;
use crate::post::{post_command, post_import};
use crate::reply::{ReplyText, bare_reply};
use crate::routes::{Route, Routes};
use crate::show::{show_command, show_view};
use ob_base::Fault;
use ob_http_replies::{Allow, Status};
use ob_http_requests::{Method, Request};
use ob_store::{Alter, Keeper};
use ob_sweep::Timeline;
use std::alloc::Global;

/// Answers a request from a keeper's book: applies the commands that it posts, and returns the bytes
/// of the reply. `closes` decides whether the reply states that the stream ends after it. A path
/// without a route is answered 404, and a method that the route doesn't take 405, whatever the
/// keeper and the memory. A plan leaves the store and the book of the keeper as they are.
///
/// # Errors
///
/// `Fault::Reopen` if a route needs the book and there is none, `Fault::OutOfMemory`,
/// `Fault::Store`. A command, or the rows of an import, may then be in the book without a reply.
pub fn answer<S: Alter, T: Timeline>(
    alloc: Global,
    routes: &Routes,
    keeper: &mut Keeper<S, T>,
    request: &Request,
    closes: bool,
) -> Result<ReplyText, Fault>
    ensures constant { IfSome (bookless (message_of request.now)) (λ a. IsReplyOf a closes result
        × (keeper.new ≡ keeper.old)) }
    ensures unopened { book_of keeper.old ≡ None → (keeper.new ≡ keeper.old)
        × Unopened (bookless (message_of request.now)) closes result }
    ensures faults { IsSome (book_of keeper.old) → IfErr result IsAnswerFault }
    ensures dropped { IsSome (book_of keeper.old) → (book_of keeper.new ≡ None)
        ↔ (result ≡ Err Fault.Store) }
    ensures clean { WasClean keeper.old keeper.new }
    ensures answered { IfHeld keeper.old keeper.new (λ b. Answered keeper.new b
        (message_of request.now) closes result) }
    ensures plan { AsksPlan (message_of request.now) → OnlySearches keeper.old keeper.new }
    // no fault of the store is forgotten, row numbers and the step limit stay, and a store fault has
    // a cause
    ensures tells { TellsFaults keeper.old keeper.new (result ≡ Err Fault.Store) }
{
    let route = routes.route_of(request.path());
    answer_route(alloc, keeper, request.method, route, &request.body, closes)
}

/// Answers a method at a route, if there is one.
fn answer_route<S: Alter, T: Timeline>(
    alloc: Global,
    keeper: &mut Keeper<S, T>,
    method: Method,
    route: Option<Route>,
    body: &[u8],
    closes: bool,
) -> Result<ReplyText, Fault>
    ensures serves { Serves keeper.old keeper.new (λ b. RouteAnswered keeper.new b method route
        body.now closes result) (bookless_at method route) closes result }
    ensures plan { method ≡ Method.Post → route ≡ Some Route.Plan
        → OnlySearches keeper.old keeper.new }
{
    match route {
        None => Ok(bare_reply(Status::NotFound, closes)),
        Some(route) => match method {
            Method::Get => answer_get(alloc, keeper, route, closes),
            Method::Post => answer_post(alloc, keeper, route, body, closes),
        },
    }
}

/// Answers a GET of a route.
fn answer_get<S: Alter, T: Timeline>(
    alloc: Global,
    keeper: &mut Keeper<S, T>,
    route: Route,
    closes: bool,
) -> Result<ReplyText, Fault>
    ensures { Serves keeper.old keeper.new (λ b. Gives keeper.new b (got b route) closes result)
        (bookless_at Method.Get (Some route)) closes result }
{
    match route {
        Route::View(view) => show_view(alloc, keeper, view, closes),
        Route::Command(no) => show_command(alloc, keeper, no, closes),
        Route::Commands => Ok(bare_reply(Status::MethodNotAllowed(Allow::Post), closes)),
        Route::Import => Ok(bare_reply(Status::MethodNotAllowed(Allow::Post), closes)),
        Route::Plan => Ok(bare_reply(Status::MethodNotAllowed(Allow::Post), closes)),
    }
}

/// Answers a POST to a route.
fn answer_post<S: Alter, T: Timeline>(
    alloc: Global,
    keeper: &mut Keeper<S, T>,
    route: Route,
    body: &[u8],
    closes: bool,
) -> Result<ReplyText, Fault>
    ensures serves { Serves keeper.old keeper.new (λ b. RouteAnswered keeper.new b Method.Post
        (Some route) body.now closes result) (bookless_at Method.Post (Some route)) closes result }
    ensures plan { route ≡ Route.Plan → OnlySearches keeper.old keeper.new }
{
    match route {
        Route::Commands => post_command(alloc, keeper, body, closes),
        Route::Import => post_import(alloc, keeper, body, closes),
        Route::Plan => post_plan(alloc, keeper, body, closes),
        Route::Command(_) => Ok(bare_reply(Status::MethodNotAllowed(Allow::Get), closes)),
        Route::View(_) => Ok(bare_reply(Status::MethodNotAllowed(Allow::Get), closes)),
    }
}
