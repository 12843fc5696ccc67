//! Rules for a value at a path, for an optional member, and for each part of a list or an object.

ghost use Rattle.std.specs.Prelude.{◌≡◌, ◌++◌, ℕ, List, OnOk, map, string_bytes};
ghost use Rattle.serde_json.specs.Data.{Data};
ghost use Rattle.serde_json.specs.View.{view};
ghost use Rattle.workflow_lint.specs.Checks.{items_at, members_at, optional_at};
ghost use Rattle.workflow_lint.specs.declared.finding.Finding.{Finding};

use crate::finding::Finding;
use crate::paths::{item_path, member_path};
use serde_json::{Map, Value};
use std::alloc::{AllocError, Global};

/// A rule for a value at a path.
pub(crate) trait Rule {
    ghost findings: { Self → List ℕ → Data → List Finding };

    /// Appends the findings of the rule for a value.
    fn check(
        &self,
        alloc: Global,
        path: &str,
        value: &Value,
        found: &mut Vec<Finding>,
    ) -> Result<(), AllocError>
        ensures { OnOk result (found.new.items ≡ found.old.items ++ findings self.now path.now (view value.now)) };
}

/// Appends the findings of a rule for a member of the object at a path, if it has a member with this name.
pub(crate) fn check_member<R: Rule>(
    alloc: Global,
    rule: &R,
    path: &str,
    object: &Value,
    name: &str,
    found: &mut Vec<Finding>,
) -> Result<(), AllocError>
    ensures { OnOk result (found.new.items
        ≡ found.old.items ++ optional_at (R.findings rule.now) path.now name.now (view object.now)) }
{
    let Some(value) = object.get(name) else {
        return Ok(());
    };
    let path = member_path(alloc, path, name)?;
    rule.check(alloc, path.as_str(), value, found)
}

/// Appends the findings of a rule for each item of the list at a path.
pub(crate) fn check_items<R: Rule>(
    alloc: Global,
    rule: &R,
    path: &str,
    values: &[Value],
    found: &mut Vec<Finding>,
) -> Result<(), AllocError>
    ensures { OnOk result (found.new.items ≡ found.old.items ++ items_at (R.findings rule.now) path.now (map view values.now)) }
{
    for i in 0..values.len() {
        let path = item_path(alloc, path, i)?;
        rule.check(alloc, path.as_str(), &values[i], found)?;
    }
    Ok(())
}

/// Appends the findings of a rule for each member of the object at a path.
pub(crate) fn check_members<R: Rule>(
    alloc: Global,
    rule: &R,
    path: &str,
    members: &Map<String, Value>,
    found: &mut Vec<Finding>,
) -> Result<(), AllocError>
    ensures { OnOk result (found.new.items ≡ found.old.items
        ++ members_at (R.findings rule.now) path.now (map (λ e. (string_bytes e.0, view e.1)) members.now.entries)) }
{
    for (name, value) in members {
        let path = member_path(alloc, path, name.as_str())?;
        rule.check(alloc, path.as_str(), value, found)?;
    }
    Ok(())
}
