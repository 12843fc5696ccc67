//! The `concurrency` of a workflow or of a job.

ghost use Rattle.std.specs.Prelude.{◌≡◌, ◌++◌, [], IfOk, OnOk, option_to_list, string_bytes, unwrap_or};
ghost use Rattle.serde_json.specs.View.{view};
ghost use Rattle.wf_reader.specs.Job.{group_text, is_concurrency, template_faults};
ghost use Rattle.wf_reader.specs.Faults.{fault_unless};
ghost use Rattle.wf_value.specs.declared.code.Code.TheVariants.{WrongKind};
ghost use Rattle.workflow_lint.specs.Findings.{at};
ghost use Rattle.workflow_lint.specs.InJob.{group_path};

use crate::check::{Check, fault_of};
use crate::finding::{Finding, push_code, push_if};
use crate::paths::member_path;
use crate::rule::{Rule, check_member};
use serde_json::Value;
use std::alloc::{AllocError, Global};
use wf_expr::ContextSite;
use wf_reader::{is_concurrency, read_group};
use wf_value::{Code, Refusal};

fn check_kind(
    alloc: Global,
    path: &str,
    value: &Value,
    found: &mut Vec<Finding>,
) -> Result<(), AllocError>
    ensures { OnOk result (found.new.items ≡ found.old.items ++ at path.now (fault_unless (is_concurrency (view value.now)) WrongKind)) }
{
    if is_concurrency(value) {
        return Ok(());
    }
    push_code(alloc, path, Code::WrongKind, found)
}

/// The path of the text that names the group.
fn group_path(alloc: Global, path: &str, value: &Value) -> Result<String, AllocError>
    ensures { IfOk result (λ s. string_bytes s ≡ group_path path.now (view value.now)) }
{
    if value.is_string() {
        return String::from_str(alloc, path);
    }
    member_path(alloc, path, "group")
}

/// The fault of the text that names the group, if any.
fn group_fault(
    alloc: Global,
    site: ContextSite,
    value: &Value,
) -> Result<Option<Refusal>, AllocError>
    ensures { IfOk result (λ fault. option_to_list fault ≡ template_faults site (unwrap_or (group_text (view value.now)) [])) }
{
    fault_of(read_group(alloc, value, site))
}

fn check_group(
    alloc: Global,
    site: ContextSite,
    path: &str,
    value: &Value,
    found: &mut Vec<Finding>,
) -> Result<(), AllocError>
    ensures { OnOk result (found.new.items ≡ found.old.items
        ++ at (group_path path.now (view value.now)) (template_faults site (unwrap_or (group_text (view value.now)) []))) }
{
    let fault = group_fault(alloc, site, value)?;
    let path = group_path(alloc, path, value)?;
    push_if(alloc, path.as_str(), fault, found)
}

/// The rule for a `concurrency`: first wrong kinds, of the value and of its members, then faults of its templates.
#[derive(Clone, Copy)]
pub(crate) struct ConcurrencyIn {
    pub(crate) site: ContextSite,
}

impl Rule for ConcurrencyIn {
    ghost use Rattle.workflow_lint.specs.InJob.{concurrency_at};

    ghost findings = { λ c. concurrency_at c.site };

    fn check(
        &self,
        alloc: Global,
        path: &str,
        value: &Value,
        found: &mut Vec<Finding>,
    ) -> Result<(), AllocError> {
        check_kind(alloc, path, value, found)?;
        check_group(alloc, self.site, path, value, found)?;
        let flag = Check::Flag(self.site);
        check_member(alloc, &flag, path, value, "cancel-in-progress", found)
    }
}
