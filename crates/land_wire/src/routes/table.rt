//! The route table.
ghost use Rattle.std.specs.Prelude.{◌≡◌, [], IfOk, OnOk, true};
ghost use Rattle.std.specs.List.{fold};
ghost use Rattle.land_wire.specs.Routes.Table.{RoutesCorrectly, have_no_conflicts, has_no_conflict};
ghost use Rattle.land_wire.specs.Routes.Table.{with_entry, with_route};

use land_core::kind::Kind;
use matchit::{InsertError, Router};
use std::alloc::{AllocError, Global};

/// The endpoint of an entry in the route table.
#[derive(Clone, Copy, Debug, PartialEq, Eq)]
pub enum Endpoint {
    /// All objects of a kind.
    List(Kind),
    /// One object of a kind.
    View(Kind),
    /// A unit's title sheet.
    Sheet,
    /// An act.
    Act,
}

/// Builds a router that finds the resource of each path. A connection builds it once, and passes it to
/// `find_route`. The entries have no conflicts, so the only error is out of memory.
pub fn routes(alloc: Global) -> Result<Router<Endpoint>, AllocError>
    ensures { IfOk result (λ router. RoutesCorrectly router) }
{
    build_router(
        alloc,
        &[
            ("/parties", Endpoint::List(Kind::Party)),
            ("/parties/{number}", Endpoint::View(Kind::Party)),
            ("/units", Endpoint::List(Kind::Unit)),
            ("/units/{number}", Endpoint::View(Kind::Unit)),
            ("/units/{number}/sheet", Endpoint::Sheet),
            ("/parcels", Endpoint::List(Kind::Parcel)),
            ("/parcels/{number}", Endpoint::View(Kind::Parcel)),
            ("/rrrs", Endpoint::List(Kind::Rrr)),
            ("/rrrs/{number}", Endpoint::View(Kind::Rrr)),
            ("/sources", Endpoint::List(Kind::Source)),
            ("/sources/{number}", Endpoint::View(Kind::Source)),
            ("/mutations", Endpoint::List(Kind::Mutation)),
            ("/mutations/{number}", Endpoint::View(Kind::Mutation)),
            ("/acts/{act}", Endpoint::Act),
        ],
    )
}

fn build_router(alloc: Global, entries: &[(&str, Endpoint)]) -> Result<Router<Endpoint>, AllocError>
    requires { have_no_conflicts [] entries.now ≡ true }
    ensures { IfOk result (λ router. router ≡ fold with_entry [] entries.now) }
{
    let mut router = Router::new(alloc);
    for entry in entries {
        add_route(&mut router, entry.0, entry.1)?;
    }
    Ok(router)
}

fn add_route(router: &mut Router<Endpoint>, text: &str, goal: Endpoint) -> Result<(), AllocError>
    requires { has_no_conflict router.old text.now ≡ true }
    ensures { OnOk result (router.new ≡ with_route text.now goal router.old) }
{
    match router.insert(text, goal) {
        Ok(()) => Ok(()),
        Err(InsertError::OutOfMemory) => Err(AllocError),
        Err(_) => unreachable!(),
    }
}
