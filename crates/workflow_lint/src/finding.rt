ghost use Rattle.std.specs.Prelude.{◌≡◌, ◌++◌, [], ◌∷◌, OnOk, option_to_list};
ghost use Rattle.wf_value.specs.declared.refusal.Refusal.TheVariants.{Numbered};
ghost use Rattle.workflow_lint.specs.Findings.{at};

use std::alloc::{AllocError, Global};
use wf_value::{Chars, Code, Refusal};

/// A fault of a workflow.
#[derive(Drop)]
pub struct Finding {
    /// The path of the faulty member; the empty text for the whole workflow.
    pub path: Chars,
    pub refusal: Refusal,
}

/// Appends a fault of the member at a path.
pub(crate) fn push_refusal(
    alloc: Global,
    path: &str,
    refusal: Refusal,
    found: &mut Vec<Finding>,
) -> Result<(), AllocError>
    ensures { OnOk result (found.new.items ≡ found.old.items ++ at path.now (refusal ∷ [])) }
{
    let path = Chars::new(String::from_str(alloc, path)?);
    found.push(Finding { path, refusal })?;
    Ok(())
}

pub(crate) fn push_code(
    alloc: Global,
    path: &str,
    code: Code,
    found: &mut Vec<Finding>,
) -> Result<(), AllocError>
    ensures { OnOk result (found.new.items ≡ found.old.items ++ at path.now (Numbered code ∷ [])) }
{
    push_refusal(alloc, path, Refusal::Numbered(code), found)
}

/// Appends the fault, if there is one.
pub(crate) fn push_if(
    alloc: Global,
    path: &str,
    refusal: Option<Refusal>,
    found: &mut Vec<Finding>,
) -> Result<(), AllocError>
    ensures { OnOk result (found.new.items ≡ found.old.items ++ at path.now (option_to_list refusal)) }
{
    match refusal {
        Some(refusal) => push_refusal(alloc, path, refusal, found),
        None => Ok(()),
    }
}
