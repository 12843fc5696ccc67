ghost use Rattle.std.specs.Prelude.{◌≡◌, ◌≢◌, ◌∷◌, [], List, ℕ, Some, None, OnOk, IfOk, OnErr, IfErr};
ghost use Rattle.std.specs.Option.{option_copied};
ghost use Rattle.wf_value.specs.Gives.{no_memory};

use std::alloc::Global;
use std::collections::BTreeMap;
use wf_value::{Chars, Refusal, Scalar};

/// A tree of properties: a finite map from paths, which are lists of names, to scalars. Paths share the nodes of a common prefix.
#[derive(Drop)]
pub struct Properties {
    value: Option<Scalar>,
    inner: BTreeMap<String, Properties>,
}

impl Properties {
    ghost use Rattle.wf_expr.specs.Properties.{value_at, AreSame, DifferAt, DifferAfter};

    /// The empty tree, in which no path has a value.
    pub fn new(alloc: Global) -> Self
        ensures { (path : List (List ℕ)) → value_at result path ≡ None }
    {
        Properties {
            value: None,
            inner: BTreeMap::new(alloc),
        }
    }

    /// The value of a path, if any.
    pub fn get(&self, path: &[Chars]) -> Option<&Scalar>
        ensures { option_copied result ≡ value_at self.now path.now }
    {
        let mut tree = self;
        for name in path {
            match tree.inner.get(name.as_str()) {
                Some(inner) => tree = inner,
                None => return None,
            }
        }
        tree.value.as_ref()
    }

    /// Sets the value of a path and replaces any earlier one. On `Err` every path keeps its value.
    /// Promise (Needs, matrices, templates and values): Setting a path in a tree of names changes that path alone
    /// By: `wf_expr::Properties::{insert, nest}`, `others`, `err`, `memory`; `wf_expr::Properties::{get, new}`; `wf_expr::Context::value_of`
    pub fn insert(&mut self, alloc: Global, path: &[Chars], value: Scalar) -> Result<(), Refusal>
        ensures value { OnOk result (value_at self.new path.now ≡ Some value) }
        ensures others { OnOk result (DifferAt path.now self.new self.old) }
        ensures err { OnErr result (AreSame self.new self.old) }
        ensures memory { IfErr result (λ e. e ≡ no_memory) }
    {
        match path {
            [] => {
                self.value = Some(value);
                Ok(())
            }
            [name, rest @ ..] => {
                if let Some(inner) = self.inner.get_mut(name.as_str()) {
                    return inner.insert(alloc, rest, value);
                }
                let inner = Properties::of_path(alloc, rest, value)?;
                self.nest(alloc, name, inner)
            }
        }
    }

    /// The tree in which only this path has a value.
    fn of_path(alloc: Global, path: &[Chars], value: Scalar) -> Result<Self, Refusal>
        ensures value { IfOk result (λ tree. value_at tree path.now ≡ Some value) }
        ensures others { IfOk result (λ tree. (p : List (List ℕ)) → p ≢ path.now → value_at tree p ≡ None) }
        ensures memory { IfErr result (λ e. e ≡ no_memory) }
    {
        match path {
            [] => Ok(Properties {
                value: Some(value),
                inner: BTreeMap::new(alloc),
            }),
            [name, rest @ ..] => {
                let inner = Properties::of_path(alloc, rest, value)?;
                let mut tree = Properties::new(alloc);
                tree.nest(alloc, name, inner)?;
                Ok(tree)
            }
        }
    }

    /// Replaces all paths that begin with the name: the rest of each path is looked up in the inner tree. On `Err` every path keeps
    /// its value.
    pub fn nest(&mut self, alloc: Global, name: &Chars, inner: Properties) -> Result<(), Refusal>
        ensures within { OnOk result ((path : List (List ℕ)) → value_at self.new (name.now ∷ path) ≡ value_at inner path) }
        ensures others { OnOk result (DifferAfter name.now self.new self.old) }
        ensures err { OnErr result (AreSame self.new self.old) }
        ensures memory { IfErr result (λ e. e ≡ no_memory) }
    {
        let name = String::from_str(alloc, name.as_str())?;
        self.inner.insert(name, inner)?;
        Ok(())
    }
}
