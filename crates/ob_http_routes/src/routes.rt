//! The routes of the desk, the book's HTTP server.
ghost use Rattle.std.specs.Prelude.{◌≡◌, IfOk, drop, option_map};
ghost use Rattle.matchit.specs.Seek.{first};
ghost use Rattle.ob_base.specs.Fields.{number_in, unix_second_in};
ghost use Rattle.ob_http_routes.specs.Routes.{desk_routes, number_at, route_at, route_of, second_at, view_at};

use matchit::{InsertError, Router};
use ob_base::{Second, read_number, read_unix_second};
use std::alloc::Global;

/// The route of a path.
#[derive(Clone, Copy)]
pub enum Route {
    /// Commands, one in each request.
    Commands,
    /// Imports of commands.
    Import,
    /// What a command would do.
    Plan,
    /// The stored reply of the command of a number.
    Command(u32),
    /// A view of the book.
    View(View),
}

/// A view of the book.
#[derive(Clone, Copy)]
pub enum View {
    /// The customer-seconds without supply.
    Totals,
    /// The indices over all interruptions and over those that don't begin on a major event day.
    Indices,
    /// The annual table.
    Table,
    /// The entry of a number.
    Entry(u32),
    /// The supply at a second.
    Supply(Second),
}

/// The table of routes. A number in one of its routes is 0: the path says which number is meant.
#[derive(Drop)]
pub struct Routes {
    router: Router<Route>,
    ghost rows: { router ≡ desk_routes },
}

impl Routes {
    ghost use Rattle.std.specs.Prelude.{◌≡◌, string_bytes};
    ghost use Rattle.ob_http_routes.specs.Routes.{desk_routes, route_of};

    /// Builds the table. Fails only if an allocation fails.
    pub fn new(alloc: Global) -> Result<Routes, InsertError> {
        let router = table(alloc)?;
        Ok(Routes { router })
    }

    /// Returns the route of a path: `/commands`, `/import`, `/plan`, `/totals`, `/indices`,
    /// `/table`, `/commands/{no}` and `/entries/{no}`, where `no` has 1 to 10 digits and is at most
    /// 4,294,967,295, and `/supply/{second}`, where `second` has 1 to 11. None for any other path.
    pub fn route_of(&self, path: &str) -> Option<Route>
        ensures { result ≡ route_of path.now }
    {
        match self.router.at(path) {
            Ok(found) => route_at(*found.value, path),
            Err(_) => None,
        }
    }
}

/// The rows of the table.
fn table(alloc: Global) -> Result<Router<Route>, InsertError>
    ensures { IfOk result (λ router. router ≡ desk_routes) }
{
    let mut router = Router::new(alloc);
    router.insert("/commands", Route::Commands)?;
    router.insert("/commands/{no}", Route::Command(0))?;
    router.insert("/entries/{no}", Route::View(View::Entry(0)))?;
    router.insert("/import", Route::Import)?;
    router.insert("/indices", Route::View(View::Indices))?;
    router.insert("/plan", Route::Plan)?;
    router.insert("/supply/{second}", Route::View(View::Supply(0)))?;
    router.insert("/table", Route::View(View::Table))?;
    router.insert("/totals", Route::View(View::Totals))?;
    Ok(router)
}

/// Returns the route of a path that matches this row of the table.
fn route_at(row: Route, path: &str) -> Option<Route>
    ensures { result ≡ route_at row path.now }
{
    match row {
        Route::Commands | Route::Import | Route::Plan => Some(row),
        Route::Command(_) => match number_at(path, 10) {
            Some(no) => Some(Route::Command(no)),
            None => None,
        },
        Route::View(view) => match view_at(view, path) {
            Some(view) => Some(Route::View(view)),
            None => None,
        },
    }
}

/// Returns the view of a path that matches the row of this view.
fn view_at(row: View, path: &str) -> Option<View>
    ensures { result ≡ view_at row path.now }
{
    match row {
        View::Totals | View::Indices | View::Table => Some(row),
        View::Entry(_) => match number_at(path, 9) {
            Some(no) => Some(View::Entry(no)),
            None => None,
        },
        View::Supply(_) => match second_at(path, 8) {
            Some(second) => Some(View::Supply(second)),
            None => None,
        },
    }
}

/// Returns the number that begins at this byte of a path.
fn number_at(path: &str, at: usize) -> Option<u32>
    ensures { result ≡ number_at at path.now }
{
    match read_number(bytes_from(path, at), 10, 0, 4_294_967_295) {
        Some(number) => Some(number as u32),
        None => None,
    }
}

/// Returns the second that begins at this byte of a path.
fn second_at(path: &str, at: usize) -> Option<Second>
    ensures { result ≡ second_at at path.now }
{
    read_unix_second(bytes_from(path, at))
}

/// Returns the bytes of a path from this one on.
fn bytes_from(path: &str, at: usize) -> &[u8]
    ensures { result.now ≡ drop at path.now }
{
    let bytes = path.as_bytes();
    if bytes.len() < at {
        return b"";
    }
    &bytes[at..]
}

/// States the routes of some paths. Does nothing at run time.
pub fn routes_law()
    ensures totals { route_of (codes "/totals") ≡ Some (Route.View View.Totals) }
    ensures commands { route_of (codes "/commands") ≡ Some Route.Commands }
    ensures command { route_of (codes "/commands/26") ≡ Some (Route.Command 26) }
    ensures entry { route_of (codes "/entries/9") ≡ Some (Route.View (View.Entry 9)) }
    ensures table { route_of (codes "/table") ≡ Some (Route.View View.Table) }
    ensures indices { route_of (codes "/indices") ≡ Some (Route.View View.Indices) }
    ensures import { route_of (codes "/import") ≡ Some Route.Import }
    ensures plan { route_of (codes "/plan") ≡ Some Route.Plan }
    ensures supply { route_of (codes "/supply/1743800400")
        ≡ Some (Route.View (View.Supply 1743800400)) }
    ensures deeper { route_of (codes "/commands/26/") ≡ None }
    ensures empty { route_of (codes "/entries/") ≡ None }
    ensures word { route_of (codes "/entries/x") ≡ None }
    ensures long { route_of (codes "/supply/174380040000") ≡ None }
{}

ghost use Rattle.std.specs.Prelude.{codes, Some, None};
