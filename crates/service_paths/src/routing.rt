//! The page of a path.
ghost use Rattle.std.specs.Prelude.{◌≡◌, true, None, IfOk, OnOk};
ghost use Rattle.matchit.specs.Order.{lookup, placed};
ghost use Rattle.service_paths.specs.Paths.{page_of, routes};
ghost use Rattle.service_paths.specs.Routers.{IsStatic, is_plain, plain_route, HoldsRows};

use crate::page::Page;
use crate::table::{Route, routes};
use exact_time::OutOfMemory;
use matchit::{InsertError, Router};
use std::alloc::Global;
use std::str;

// Why no route was added, where there was no memory for it.
fn want_of_memory(error: InsertError) -> OutOfMemory
    requires { error ≡ InsertError.OutOfMemory }
{
    match error {
        InsertError::OutOfMemory => OutOfMemory,
        _ => unreachable!(),
    }
}

// Adds a path without parameters to such paths, of which none is the same.
fn add_route(router: &mut Router<Page>, route: &Route) -> Result<(), OutOfMemory>
    requires plain { is_plain route.now.path.now ≡ true }
    requires static_rows { IsStatic router.old }
    requires new_path { lookup route.now.path.now router.old ≡ None }
    ensures { OnOk result (router.new
        ≡ placed (plain_route route.now.path.now route.now.page) router.old) }
{
    match router.insert(route.path, route.page) {
        Ok(()) => Ok(()),
        Err(error) => Err(want_of_memory(error)),
    }
}

// The router of the table.
fn router_of(alloc: Global) -> Result<Router<Page>, OutOfMemory>
    ensures { IfOk result (HoldsRows routes) }
{
    let mut router = Router::new(alloc);
    let table = routes();
    for route in &table {
        add_route(&mut router, route)?;
    }
    Ok(router)
}

fn page_of_text(alloc: Global, path: &str) -> Result<Option<Page>, OutOfMemory>
    ensures { IfOk result (λ p. p ≡ page_of path.now) }
{
    let router = router_of(alloc)?;
    match router.at(path) {
        Ok(found) => Ok(Some(*found.value)),
        Err(_) => Ok(None),
    }
}

/// The page that a path leads to, which is one of the table's, byte for byte: no escape is undone, and no
/// slash at the end is passed over. Takes memory for the router.
pub fn page_of(alloc: Global, path: &[u8]) -> Result<Option<Page>, OutOfMemory>
    ensures { IfOk result (λ p. p ≡ page_of path.now) }
{
    match str::from_utf8(path) {
        Ok(text) => page_of_text(alloc, text),
        Err(_) => Ok(None),
    }
}
