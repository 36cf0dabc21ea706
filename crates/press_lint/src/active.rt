//! Active plugins that a kit lacks.

ghost use Rattle.std.specs.Prelude.{◌≡◌, ◌++◌, IfOk, OnOk, string_bytes};
ghost use Rattle.press_lint.specs.Slips as spec;

use crate::installed::Installed;
use crate::mistakes::titles_of;
use press_kit::KitParts;
use press_text::Name;
use std::alloc::{AllocError, Global};

// A kit whose plugins are looked for, with a prefix for each line.
#[derive(Drop)]
struct Search<'k> {
    alloc: Global,
    front: &'k str,
    installed: Installed<'k>,
}

impl Search<'_> {
    fn lacking_slip(&self, n: usize, name: &Name) -> Result<String, AllocError>
        ensures { IfOk result (λ t. string_bytes t
            ≡ spec.lacking_slip self.now.front.now n name.now) }
    {
        let (front, name) = (self.front, name.as_str());
        format!(in self.alloc;
            "{front}active[{n}]: names a plugin that is not in the kit: \"{name}\"\n"
        )
    }

    fn active_slip(&self, n: usize, name: &Name) -> Result<String, AllocError>
        ensures { IfOk result (λ t. string_bytes t
            ≡ spec.active_slip self.now.front.now self.now.installed.kit.now n name.now) }
    {
        if self.installed.has(name.as_str().as_bytes()) {
            return Ok(String::new(self.alloc));
        }
        self.lacking_slip(n, name)
    }

    fn push_active(&self, out: &mut String, active: &[Name]) -> Result<(), AllocError>
        ensures { OnOk result (string_bytes out.new ≡ string_bytes out.old
            ++ spec.active_slips self.now.front.now self.now.installed.kit.now active.now) }
    {
        for n in 0..active.len() {
            let slip = self.active_slip(n, &active[n])?;
            out.push_str(slip.as_str())?;
        }
        Ok(())
    }
}

fn installed_in(alloc: Global, kit: &KitParts) -> Result<Installed<'_>, AllocError>
    ensures { IfOk result (λ it. it.kit.now ≡ kit.now) }
{
    let names = titles_of(alloc, kit.plugins.as_slice())?.names;
    Ok(Installed { kit, names })
}

/// A line for each active plugin that the kit lacks, after this prefix.
pub fn active_slips(
    alloc: Global,
    front: &str,
    kit: &KitParts,
    active: &[Name],
) -> Result<String, AllocError>
    ensures { IfOk result (λ t. string_bytes t ≡ spec.active_slips front.now kit.now active.now) }
{
    let search = Search {
        alloc,
        front,
        installed: installed_in(alloc, kit)?,
    };
    let mut out = String::new(alloc);
    search.push_active(&mut out, active)?;
    Ok(out)
}
