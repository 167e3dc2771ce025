//! Routes: the resource of a path, and its method.
ghost use Rattle.std.specs.Prelude.{◌≡◌, ◌+◌, ◌≤◌, length, drop, option_map};
ghost use Rattle.land_wire.specs.Routes.{allows, before_slash, list_path, method_of, resource, route_of};
ghost use Rattle.land_wire.specs.Routes.Table.{RoutesCorrectly, resource_of_endpoint};

use crate::routes::act_word::ActWord;
use crate::routes::table::Endpoint;
use land_core::kind::Kind;
use matchit::Router;

/// The resource of a path.
#[derive(Clone, Copy, Debug)]
pub enum Route<'a> {
    /// `/parties`, `/units` and so on: all objects of a kind.
    List(Kind),
    /// `/parties/{number}` and so on: one object of a kind, with the segment that contains its number.
    View(Kind, &'a [u8]),
    /// `/units/{number}/sheet`: a unit's title sheet, with the segment that contains the unit's number.
    Sheet(&'a [u8]),
    /// `/acts/{word}`: an act, by its word.
    Act(ActWord),
}

impl<'a> Route<'a> {
    /// Returns the method of a route: GET for lists, objects and title sheets, POST for acts.
    pub fn method(&self) -> &'static str
        ensures { result.now ≡ method_of (resource self.now) }
    {
        match self {
            Route::List(_) | Route::View(_, _) | Route::Sheet(_) => "GET",
            Route::Act(_) => "POST",
        }
    }
}

/// Checks whether a route has this method. Methods are case-sensitive.
pub fn allows(route: &Route<'_>, method: &[u8]) -> bool
    ensures { result ≡ allows (resource route.now) method.now }
{
    method == route.method().as_bytes()
}

/// Returns the route of a path, or `None` if it has none. `router` comes from `routes`.
pub fn find_route<'a>(router: &Router<Endpoint>, path: &'a str) -> Option<Route<'a>>
    requires { RoutesCorrectly router.now }
    ensures { option_map resource result ≡ route_of path.now }
{
    match router.at(path) {
        Ok(found) => route_at(*found.value, path.as_bytes()),
        Err(_) => None,
    }
}

fn route_at(goal: Endpoint, path: &[u8]) -> Option<Route<'_>>
    ensures { option_map resource result ≡ resource_of_endpoint path.now goal }
{
    match goal {
        Endpoint::List(kind) => Some(Route::List(kind)),
        Endpoint::View(kind) => {
            let part = skip_bytes(path, list_path_length(kind) + 1);
            Some(Route::View(kind, part))
        }
        Endpoint::Sheet => Some(Route::Sheet(first_segment(skip_bytes(path, 7)))),
        Endpoint::Act => Some(Route::Act(ActWord::of(skip_bytes(path, 6))?)),
    }
}

fn list_path_length(kind: Kind) -> usize
    ensures { result ≡ length (list_path kind) }
{
    match kind {
        Kind::Party => 8,
        Kind::Unit => 6,
        Kind::Parcel => 8,
        Kind::Rrr => 5,
        Kind::Source => 8,
        Kind::Mutation => 10,
    }
}

fn skip_bytes(path: &[u8], count: usize) -> &[u8]
    ensures { result.now ≡ drop count path.now }
{
    if count <= path.len() {
        &path[count..]
    } else {
        &[]
    }
}

fn first_segment(path: &[u8]) -> &[u8]
    ensures { result.now ≡ before_slash path.now }
{
    let at = find_slash(path);
    if at < path.len() { &path[..at] } else { path }
}

fn find_slash(path: &[u8]) -> usize
    ensures count { result ≡ length (before_slash path.now) }
    ensures within { result ≤ length path.now }
{
    for (at, byte) in path.iter().enumerate() {
        if *byte == b'/' {
            return at;
        }
    }
    path.len()
}
