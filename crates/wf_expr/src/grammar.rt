ghost use Rattle.std.specs.Prelude.{◌≡◌, ℕ, List, Result};
ghost use Rattle.wf_value.specs.declared.refusal.Refusal.{Refusal};
ghost use Rattle.wf_expr.specs.Outcome.{IsOutcome, Parsed};
ghost use Rattle.wf_expr.specs.Profile.{Encodes};
ghost use Rattle.wf_expr.specs.declared.piece.Piece.{Piece};
ghost use Rattle.wf_expr.specs.declared.context_site.ContextSite.{ContextSite};

/// A text is the source of at most one template.
pub fn spells_one_template()
    ensures { (text : List ℕ) (t u : List Piece) → Encodes text t → Encodes text u → t ≡ u }
{}

/// Every text has exactly one outcome in each site: the template, if the text is one and the site allows its contexts; 17 if and only
/// if the text is not a template; and 18 if and only if it is a template with a context that the site does not allow.
pub fn a_text_has_one_outcome()
    ensures one { (text : List ℕ) (site : ContextSite) → Parsed text site }
    ensures only { (text : List ℕ) (site : ContextSite) (outcome other : Result (List Piece) Refusal) →
        IsOutcome text site outcome → IsOutcome text site other → outcome ≡ other }
{}
