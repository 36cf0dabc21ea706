//! The paths that a server has beside those of a site, and what each is for.

ghost use Rattle.std.specs.Prelude.{◌≡◌, IfOk};
ghost use Rattle.press_operator.specs.Paths.{method_of, own_at, table};

use matchit::Router;
use press_http::add_route;
use std::alloc::{AllocError, Global};

/// What a path of the program's own is for.
#[derive(Clone, Copy, Debug, PartialEq, Eq)]
pub enum Own {
    /// Whether the node is ready.
    Ready,
    /// The page of numbers for those who watch the server.
    Metrics,
    /// The page for editors.
    Editor,
    /// That messages of a member be taken.
    Members,
}

impl Own {
    // The one method that is served there.
    fn method(self) -> &'static str
        ensures { result.now ≡ method_of self }
    {
        match self {
            Own::Ready | Own::Metrics | Own::Editor => "GET",
            Own::Members => "POST",
        }
    }
}

#[tactic(auto, unfolding(crate::specs::Paths::table))]
fn routes(alloc: Global) -> Result<Router<Own>, AllocError>
    ensures { IfOk result (λ r. r ≡ table) }
{
    let mut router = Router::new(alloc);
    add_route(&mut router, "/ready", Own::Ready)?;
    add_route(&mut router, "/editor", Own::Editor)?;
    add_route(&mut router, "/members", Own::Members)?;
    add_route(&mut router, "/metrics", Own::Metrics)?;
    Ok(router)
}

/// The table of these paths.
#[derive(Drop)]
pub struct Paths {
    router: Router<Own>,
    ghost whole: { router ≡ table },
}

impl Paths {
    /// The table, which takes memory.
    pub fn new(alloc: Global) -> Result<Paths, AllocError> {
        Ok(Paths {
            router: routes(alloc)?,
        })
    }

    /// What a target is for, where it is served by that method. No memory is taken.
    pub fn at(&self, method: &str, target: &str) -> Option<Own>
        ensures { result ≡ own_at method.now target.now }
    {
        match self.router.at(target) {
            Ok(found) if found.value.method() == method => Some(*found.value),
            _ => None,
        }
    }
}
