//! Who serves a node for the program.

ghost use Rattle.std.specs.Prelude.{◌≡◌, Result};
ghost use Rattle.press_callbacks.specs.Kits.{KitView, kit_view};
ghost use Rattle.press_server.specs.Listening.{server_line, where_of};
ghost use Rattle.press_server.specs.declared.serve_fault.ServeFault.{ServeFault as Fault};
ghost use Rattle.press_text.specs.Streams.{AppendsFront};
ghost use Rattle.press_program.specs.Words.{Server, server_of};

use press_callbacks::Kit;
use press_server::{ServeFault, Setup};
use std::io::Write;

/// Whoever serves a node over a kit, at the place, over the store and with the page for editors
/// that a setup names.
pub trait Serves {
    /// That it served over this kit, as these arguments have it, and how that ended. A program that
    /// is given anyone who serves can't make it up.
    ghost served: { KitView → Server → Result (Unit {0}) Fault → Type 0 };

    /// Serves until as many connections as were asked for had their turn. It writes the line that
    /// it listens, or a prefix of it.
    fn serve<W: Write, E: Write>(
        &self,
        kit: Kit,
        setup: &Setup<'_>,
        writer: &mut W,
        error: &mut E,
    ) -> Result<(), ServeFault>
        ensures served { served (kit_view kit) (server_of setup.now) result }
        ensures line { AppendsFront (W.contents writer.old) (W.contents writer.new)
            (server_line (where_of setup.now.place)) };
}

/// Serves over the sockets and files of the operating system, of which contracts see no bytes.
#[derive(Clone, Copy)]
pub struct Sockets<'r> {
    pub rt: &'r HostRuntime,
}

impl Serves for Sockets<'_> {
    ghost served = { λ _ _ _. Unit {0} };

    fn serve<W: Write, E: Write>(
        &self,
        kit: Kit,
        setup: &Setup<'_>,
        writer: &mut W,
        error: &mut E,
    ) -> Result<(), ServeFault> {
        setup.serve(self.rt, kit, writer, error)
    }
}
