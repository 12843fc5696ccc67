ghost use Rattle.wf_value.specs.Gives.{Gives};
ghost use Rattle.wf_reader.specs.Faults.{unless_faulty};
ghost use Rattle.wf_reader.specs.Job.{template_faults, template_in};

use std::alloc::Global;
use wf_expr::{ContextSite, Template};
use wf_value::Refusal;

/// The template of a text: 17 if the text is not a template, else 18 if the site does not allow one of its contexts.
pub fn read_template(alloc: Global, text: &str, site: ContextSite) -> Result<Template, Refusal>
    ensures { Gives (λ t. t) result (unless_faulty (template_faults site text.now) (template_in site text.now)) }
{
    Template::parse(alloc, text, site)
}
