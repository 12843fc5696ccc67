//! Laws of settling.

ghost use Rattle.std.specs.Prelude.{◌≡◌, ◌<◌, ℕ, List, Some, None};
ghost use Rattle.table_model.specs.GroupLaw.{Transition, and_then};
ghost use Rattle.table_model.specs.Runs.{run_at, RunState};
ghost use Rattle.table_model.specs.Settling.{IsNoArrival, rule_at, run_of_site, first_site, first_rule, remaining_phases, settled, settling};
ghost use Rattle.table_model.specs.declared.sites.RuleSite.{RuleSite};

/// Settling terminates: each rule lowers the number of phases that the runs still have to pass.
/// Promise (Laws of the definitions): Settling ends, at a fixpoint, which does not depend on a rule that is applied first. A rule changes no run
///   but its own, unless a leg arrives
/// By: `settling_laws::laws::{each_rule_lowers, settled_runs_rest, rules_lead_to_one_end, rules_touch_one_run}`
pub fn each_rule_lowers()
    ensures { (runs : List RunState) (next : Transition) → first_rule runs ≡ Some next → remaining_phases next.runs < remaining_phases runs }
{}

/// After settling no rule applies.
pub fn settled_runs_rest()
    ensures { (runs : List RunState) → first_site (settled runs) ≡ None }
{}

/// Applying the first rule and then settling gives the same as settling.
pub fn rules_lead_to_one_end()
    ensures { (runs : List RunState) (next : Transition) → first_rule runs ≡ Some next → settling runs ≡ and_then next settling }
{}

/// The rule at a site changes only the run of the site, unless a leg arrives there. An arrival may end and stop holders of its group in
/// other runs.
pub fn rules_touch_one_run()
    ensures { (runs : List RunState) (next : Transition) (site : RuleSite) (r : ℕ) → rule_at runs site ≡ Some next
        → IsNoArrival runs site → (r ≡ run_of_site site → ⊥) → run_at next.runs r ≡ run_at runs r }
{}
