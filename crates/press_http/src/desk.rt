//! What editors ask of a node.

ghost use Rattle.std.specs.Prelude.{◌≡◌, ◌≢◌, Err, IfOk, Ok};
ghost use Rattle.press_text.specs.Gives.{Gives};
ghost use Rattle.press_http.specs.Forms.{LacksPlainly};
ghost use Rattle.press_http.specs.Meanings.{Refuses};
ghost use Rattle.press_http.specs.Desk as spec;

use crate::endpoint::{add_route, place_in};
use crate::fault::HttpFault;
use crate::form::first_value;
use crate::request::Request;
use crate::routing::{behind, path, query};
use matchit::Router;
use press_page::{Desk, MOST_POSTS};
use press_text::dec_u64;
use std::alloc::{AllocError, Global};

/// What a path of editors is for.
#[derive(Clone, Copy, Debug, PartialEq, Eq)]
pub(crate) enum DeskEndpoint {
    Log,
    Posts,
    Post,
    Preview,
    Site,
}

/// What editors ask of a node.
#[derive(Clone, Copy, Debug)]
pub enum DeskRequest {
    /// What it shows them of its site.
    Show(Desk),
    /// What it has applied behind the first so many.
    Log { from: u64 },
}

#[tactic(auto, unfolding(crate::specs::Desk::desk_table))]
fn table(alloc: Global) -> Result<Router<DeskEndpoint>, AllocError>
    ensures { IfOk result (λ r. r ≡ spec.desk_table) }
{
    let mut router = Router::new(alloc);
    add_route(&mut router, "/desk/log", DeskEndpoint::Log)?;
    add_route(&mut router, "/desk/posts", DeskEndpoint::Posts)?;
    add_route(&mut router, "/desk/posts/{id}", DeskEndpoint::Post)?;
    add_route(&mut router, "/desk/preview/{id}", DeskEndpoint::Preview)?;
    add_route(&mut router, "/desk/site", DeskEndpoint::Site)?;
    Ok(router)
}

fn check_method(method: &str, place: DeskEndpoint) -> Result<DeskEndpoint, HttpFault>
    ensures place { Gives Refuses Ok result (spec.desk_or_not_allowed method.now place) }
    ensures memory { result ≢ Err HttpFault.NoMemory }
{
    if method == "GET" {
        Ok(place)
    } else {
        Err(HttpFault::NotAllowed)
    }
}

// The number that a query gives, or this one.
fn number(alloc: Global, query: &str, name: &str, otherwise: u64) -> Result<u64, HttpFault>
    ensures number { Gives Refuses Ok result (spec.number_of name.now otherwise query.now) }
    ensures memory { LacksPlainly name.now query.now → result ≡ Ok otherwise }
{
    let found = first_value(alloc, query.as_bytes(), name)?;
    match found {
        None => Ok(otherwise),
        Some(text) => match dec_u64(text.as_str()) {
            Some(number) => Ok(number),
            None => Err(HttpFault::NotFound),
        },
    }
}

#[tactic(auto, unfolding(crate::specs::Desk::posts_of))]
fn posts(alloc: Global, query: &str) -> Result<DeskRequest, HttpFault>
    ensures posts { Gives Refuses Ok result (spec.posts_of query.now) }
    ensures memory { spec.LacksBoth query.now → result ≢ Err HttpFault.NoMemory }
{
    let before = number(alloc, query, "before", u64::MAX)?;
    let count = number(alloc, query, "count", MOST_POSTS)?;
    Ok(DeskRequest::Show(Desk::Posts { before, count }))
}

fn id(path: &str) -> Result<u64, HttpFault>
    ensures id { Gives Refuses Ok result (spec.id_in path.now) }
    ensures memory { result ≢ Err HttpFault.NoMemory }
{
    match dec_u64(behind(path, 3)) {
        Some(id) => Ok(id),
        None => Err(HttpFault::NotFound),
    }
}

#[tactic(auto, unfolding(crate::specs::Desk::desk_at))]
fn asked_at(alloc: Global, place: DeskEndpoint, target: &str) -> Result<DeskRequest, HttpFault>
    ensures asked { Gives Refuses Ok result (spec.desk_at place target.now) }
    ensures memory { result ≡ Err HttpFault.NoMemory → spec.TakesMemory place target.now }
{
    match place {
        DeskEndpoint::Log => Ok(DeskRequest::Log {
            from: number(alloc, query(target), "from", 0)?,
        }),
        DeskEndpoint::Posts => posts(alloc, query(target)),
        DeskEndpoint::Post => Ok(DeskRequest::Show(Desk::Post(id(path(target))?))),
        DeskEndpoint::Preview => Ok(DeskRequest::Show(Desk::Preview(id(path(target))?))),
        DeskEndpoint::Site => Ok(DeskRequest::Show(Desk::Site)),
    }
}

/// The table of the paths that editors have beside those of a site.
#[derive(Drop)]
pub struct DeskRoutes {
    router: Router<DeskEndpoint>,
    ghost whole: { router ≡ spec.desk_table },
}

impl DeskRoutes {
    /// The table, which takes memory.
    pub fn new(alloc: Global) -> Result<DeskRoutes, AllocError> {
        Ok(DeskRoutes {
            router: table(alloc)?,
        })
    }

    #[tactic(auto, unfolding(crate::specs::Desk::desk_place_at))]
    fn at(&self, path: &str) -> Result<DeskEndpoint, HttpFault>
        ensures place { result ≡ spec.desk_place_at path.now }
        ensures memory { result ≢ Err HttpFault.NoMemory }
    {
        place_in(&self.router, path)
    }

    /// What a request asks for, by its path, then its method, then its id or query. NotFound for a
    /// path that is not one of these, or whose id or number doesn't read; NotAllowed for another
    /// method than GET. Only a field of a query that may be the one that is looked for takes
    /// memory.
    #[tactic(auto, unfolding(crate::specs::Desk::desk_request_of))]
    pub fn route(&self, alloc: Global, request: &Request) -> Result<DeskRequest, HttpFault>
        ensures asked { Gives Refuses Ok result
            (spec.desk_request_of request.now.method request.now.target) }
        ensures memory { result ≡ Err HttpFault.NoMemory →
            spec.MayTakeMemory request.now.method request.now.target }
    {
        let target = request.target.as_str();
        let place = self.at(path(target))?;
        let place = check_method(request.method.as_str(), place)?;
        asked_at(alloc, place, target)
    }
}
