//! A kit file, looked through.

ghost use Rattle.std.specs.Prelude.{◌≡◌, IfOk, List, map, option_map, string_bytes};
ghost use Rattle.press_callbacks.specs.Faults.{kit_fault_number};
ghost use Rattle.press_callbacks.specs.Kits.{kit_fault};
ghost use Rattle.press_callbacks.specs.declared.plugin.Plugin.{Plugin as OnePlugin};
ghost use Rattle.press_kit.specs.KitFile.{file_in};
ghost use Rattle.press_kit.specs.declared.kit_parts.Scripted.{Scripted as Told};
ghost use Rattle.press_lint.specs.Lints.{Lints, LintsKit, TellsBad};
ghost use Rattle.press_lint.specs.Mistakes.{mistake_by, why_number};
ghost use Rattle.press_lint.specs.declared.mistake.Mistake.{Mistake as Found};

use crate::bad::{bad_line, no_json};
use crate::fault::LintFault;
use crate::linted::Linted;
use crate::mistakes::mistake_in;
use crate::slipping::slips;
use press_kit::{KitFileFault, KitParts, Place, parse_file, read_kit_file};
use std::alloc::{AllocError, Global};

/// The message about a bad file.
pub fn bad(alloc: Global, bytes: &[u8], at: Place) -> Result<String, AllocError>
    ensures { IfOk result (λ t. TellsBad (file_in bytes.now) at (string_bytes t)) }
{
    match parse_file(alloc, bytes) {
        Ok(kit) => bad_line(alloc, &kit, at),
        Err(KitFileFault::BadKitFile(_)) => no_json(alloc, bytes),
        Err(KitFileFault::NoMemory) => Err(AllocError),
    }
}

// A kit without a mistake, and its slips.
fn lint_parts(alloc: Global, front: &str, parts: KitParts) -> Result<Linted, LintFault>
    ensures { LintsKit front.now parts result }
{
    if let Some(mistake) = mistake_in(alloc, &parts)? {
        return Err(LintFault::Refused {
            number: mistake.why.number(),
            text: mistake.tell(alloc, &parts)?,
        });
    }
    let slips = slips(alloc, front, &parts, &[])?;
    Ok(Linted { parts, slips })
}

/// The callbacks and plugins of a kit file, and a line for each slip in them, after this prefix. A
/// file of which no kit can be built is refused: by 73 where it is no kit file, else by what
/// `mistake_in` finds.
pub fn lint(alloc: Global, front: &str, bytes: &[u8]) -> Result<Linted, LintFault>
    ensures { Lints front.now bytes.now result }
{
    match read_kit_file(alloc, bytes) {
        Ok(parts) => lint_parts(alloc, front, parts),
        Err(KitFileFault::BadKitFile(at)) => Err(LintFault::Refused {
            number: 73,
            text: bad(alloc, bytes, at)?,
        }),
        Err(KitFileFault::NoMemory) => Err(LintFault::NoMemory),
    }
}

/// A mistake is found exactly where callbacks and plugins make no kit, and it has the number of
/// that refusal.
pub fn refusals_are_mistakes()
    ensures { (callbacks : List Told) → (plugins : List OnePlugin)
        → option_map (λ (m : Found). why_number m.why) (mistake_by callbacks plugins)
        ≡ option_map kit_fault_number (kit_fault (map (λ c. (c.id, c.script)) callbacks) plugins) }
{}
