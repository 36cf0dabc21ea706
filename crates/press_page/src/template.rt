//! The pieces of the page template.

ghost use Rattle.std.specs.Prelude.{◌≡◌, IfOk, string_bytes, decimal};
ghost use Rattle.press_page.specs.Template as spec;

use press_text::Text;
use std::alloc::{AllocError, Global};

#[tactic(auto, unfolding(crate::specs::Template::title_part))]
pub fn title_part(alloc: Global, name: &str) -> Result<String, AllocError>
    ensures { IfOk result (λ t. string_bytes t ≡ spec.title_part name.now) }
{
    format!(in alloc; "<!DOCTYPE html>\n<html>\n<head>\n<title>{name}</title>\n")
}

#[tactic(auto, unfolding(crate::specs::Template::heading_part))]
pub fn heading_part(alloc: Global, name: &str) -> Result<String, AllocError>
    ensures { IfOk result (λ t. string_bytes t ≡ spec.heading_part name.now) }
{
    format!(in alloc; "</head>\n<body>\n<h1>{name}</h1>\n")
}

#[tactic(auto, unfolding(crate::specs::Template::article_part))]
pub fn article_part(alloc: Global, id: u64) -> Result<String, AllocError>
    ensures { IfOk result (λ t. string_bytes t ≡ spec.article_part (decimal id)) }
{
    format!(in alloc; "<article id=\"post-{id}\">\n<h2><a href=\"/?p={id}\">")
}

#[tactic(auto, unfolding(crate::specs::Template::fixed_body))]
fn fixed_text(alloc: Global, line: &str) -> Result<String, AllocError>
    ensures { IfOk result (λ t. string_bytes t ≡ spec.fixed_body line.now) }
{
    format!(in alloc; "<!DOCTYPE html>\n<html>\n<body>\n<h1>{line}</h1>\n</body>\n</html>\n")
}

pub fn fixed_body(alloc: Global, line: &str) -> Result<Text, AllocError>
    ensures { IfOk result (λ t. t ≡ spec.fixed_body line.now) }
{
    Text::from_string(fixed_text(alloc, line)?)
}
