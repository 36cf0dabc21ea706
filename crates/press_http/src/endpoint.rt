//! The paths that are served, and what each is for.

ghost use Rattle.std.specs.Prelude.{◌≡◌, ◌≢◌, [], Err, IfOk, OnOk};
ghost use Rattle.matchit.specs.Seek.{first};
ghost use Rattle.press_http.specs.Routes.{method_at, pages, place_at, place_in, table, with_route};

use crate::fault::HttpFault;
use matchit::Router;
use std::alloc::{AllocError, Global};

/// What a path is for.
#[derive(Clone, Copy, Debug, PartialEq, Eq)]
pub(crate) enum Endpoint {
    Front,
    Post,
    Outcome,
    Commands,
    Peers,
}

impl Endpoint {
    /// The one method that is served there.
    pub fn method(self) -> &'static str
        ensures { result.now ≡ method_at self }
    {
        match self {
            Endpoint::Front | Endpoint::Post | Endpoint::Outcome => "GET",
            Endpoint::Commands | Endpoint::Peers => "POST",
        }
    }
}

// What a table has at that path. No memory is taken.
pub(crate) fn place_in<P: Copy + Drop>(routes: &Router<P>, path: &str) -> Result<P, HttpFault>
    ensures place { result ≡ place_in (first routes.now path.now) }
    ensures memory { result ≢ Err HttpFault.NoMemory }
{
    match routes.at(path) {
        Ok(found) => Ok(*found.value),
        Err(_) => Err(HttpFault::NotFound),
    }
}

/// Puts a path, and what it is for, into a table. Each refusal is told as want of memory: for paths
/// that are well formed and stand once.
#[tactic(auto, using(crate::proofs::Tables::inserted), unfolding(crate::specs::Routes::with_route))]
pub fn add_route<P: Drop>(router: &mut Router<P>, path: &str, place: P) -> Result<(), AllocError>
    ensures { OnOk result (router.new ≡ with_route path.now place router.old) }
{
    match router.insert(path, place) {
        Ok(()) => Ok(()),
        Err(_) => Err(AllocError),
    }
}

#[tactic(auto, unfolding(crate::specs::Routes::pages))]
fn pages(alloc: Global) -> Result<Router<Endpoint>, AllocError>
    ensures { IfOk result (λ r. r ≡ pages) }
{
    let mut router = Router::new(alloc);
    add_route(&mut router, "/", Endpoint::Front)?;
    add_route(&mut router, "/wp-json/wp/v2/posts/{id}", Endpoint::Post)?;
    add_route(&mut router, "/result/{editor}/{seq}", Endpoint::Outcome)?;
    Ok(router)
}

#[tactic(auto, unfolding(crate::specs::Routes::table))]
fn all_routes(alloc: Global) -> Result<Router<Endpoint>, AllocError>
    ensures { IfOk result (λ r. r ≡ table) }
{
    let mut router = pages(alloc)?;
    add_route(&mut router, "/command", Endpoint::Commands)?;
    add_route(&mut router, "/peer", Endpoint::Peers)?;
    Ok(router)
}

/// The table of the paths that are served.
#[derive(Drop)]
pub struct Routes {
    router: Router<Endpoint>,
    ghost whole: { router ≡ table },
}

impl Routes {
    /// The table, which takes memory.
    pub fn new(alloc: Global) -> Result<Routes, AllocError> {
        Ok(Routes {
            router: all_routes(alloc)?,
        })
    }

    // What that path is for. No memory is taken.
    #[tactic(auto, unfolding(crate::specs::Routes::place_at))]
    pub(crate) fn at(&self, path: &str) -> Result<Endpoint, HttpFault>
        ensures place { result ≡ place_at path.now }
        ensures memory { result ≢ Err HttpFault.NoMemory }
    {
        place_in(&self.router, path)
    }
}
