//! The lines of runners.

ghost use Rattle.std.specs.Prelude.{◌≡◌, ◌++◌, [], IfOk, None, Ok, Some, codes, decimal, false, find, option_copied, string_bytes};
ghost use Rattle.std.specs.Option.{option_map_or};
ghost use Rattle.wf_value.specs.Gives.{Gives};
ghost use Rattle.table_model.specs.Fitting.{has_lease, site_of_lease};
ghost use Rattle.table_model.specs.Runs.{leg_at, leg_sites};
ghost use Rattle.table_views.specs.RunnerLines.{held_leg, lease_text, runner_line, runner_lines};
ghost use Rattle.table_views.specs.Texts.{line};

use crate::form::Form;
use crate::sites::leg_sites;
use crate::texts::{leg_members, leg_words, quoted};
use run_plan::Number;
use run_table::{Runner, Table};
use std::alloc::{AllocError, Global};
use table_model::{Leg, LegSite};
use table_runs::runs::Runs;
use wf_value::{Chars, Refusal};

fn has_lease(leg: &Leg, lease: Number) -> bool
    ensures { result ≡ has_lease lease leg.now }
{
    match leg.lease {
        Some(held) => held.get() == lease.get(),
        None => false,
    }
}

fn has_lease_at(runs: &Runs, site: LegSite, lease: Number) -> bool
    ensures { result ≡ option_map_or (has_lease lease) (leg_at runs.now site) false }
{
    match runs.leg(site) {
        Some(leg) => has_lease(leg, lease),
        None => false,
    }
}

/// The first of these sites whose leg has the lease.
fn first_with_lease<'p>(runs: &Runs, sites: &'p [LegSite], lease: Number) -> Option<&'p LegSite>
    ensures { option_copied result ≡ find (λ p. option_map_or (has_lease lease) (leg_at runs.now p) false) sites.now }
{
    sites.iter().find(|site| has_lease_at(runs, **site, lease))
}

/// The leg that has a lease. `sites` has the sites of all legs.
fn site_of_lease(runs: &Runs, sites: &[LegSite], lease: Number) -> Option<LegSite>
    requires { sites.now ≡ leg_sites runs.now }
    ensures { result ≡ site_of_lease runs.now lease }
{
    match first_with_lease(runs, sites, lease) {
        Some(site) => Some(*site),
        None => None,
    }
}

/// A lease with the leg that has it.
fn held_text(
    alloc: Global,
    form: Form,
    runs: &Runs,
    lease: Number,
    site: LegSite,
) -> Result<String, Refusal>
    ensures { Gives string_bytes result (Ok (lease_text form runs.now (Some (lease, site)))) }
{
    let lease = lease.get();
    match form {
        Form::Lines => {
            let leg = leg_words(alloc, runs, site)?;
            Ok(format!(in alloc; "lease {lease} {leg}")?)
        }
        Form::Json => {
            let leg = leg_members(alloc, runs, site)?;
            Ok(format!(in alloc; "{{\"lease\":{lease},{leg}}}")?)
        }
    }
}

fn no_lease_text(alloc: Global, form: Form) -> Result<String, Refusal>
    ensures { Gives string_bytes result (Ok (lease_text form [] None)) }
{
    let word = match form {
        Form::Lines => "-",
        Form::Json => "null",
    };
    Ok(String::from_str(alloc, word)?)
}

/// The lease that a runner holds, if any.
fn lease_text(
    alloc: Global,
    form: Form,
    runs: &Runs,
    sites: &[LegSite],
    runner: &Runner,
) -> Result<String, Refusal>
    requires { sites.now ≡ leg_sites runs.now }
    ensures { Gives string_bytes result (Ok (lease_text form runs.now (held_leg runs.now runner.now))) }
{
    let Some(lease) = runner.holds else {
        return no_lease_text(alloc, form);
    };
    match site_of_lease(runs, sites, lease) {
        Some(site) => held_text(alloc, form, runs, lease, site),
        None => no_lease_text(alloc, form),
    }
}

fn runner_words(alloc: Global, name: &str, number: u32, lease: &str) -> Result<String, AllocError>
    ensures { IfOk result (λ s. string_bytes s
        ≡ line (codes "runner " ++ name.now ++ codes " " ++ decimal number ++ codes " " ++ lease.now)) }
{
    format!(in alloc; "runner {name} {number} {lease}\n")
}

fn runner_line(
    alloc: Global,
    form: Form,
    runs: &Runs,
    sites: &[LegSite],
    runner: &Runner,
) -> Result<String, Refusal>
    requires { sites.now ≡ leg_sites runs.now }
    ensures { Gives string_bytes result (Ok (runner_line form runs.now runner.now)) }
{
    let name = runner.name.as_str();
    let number = runner.number.get();
    let lease = lease_text(alloc, form, runs, sites, runner)?;
    match form {
        Form::Lines => Ok(runner_words(alloc, name, number, lease.as_str())?),
        Form::Json => {
            let name = quoted(alloc, name)?;
            Ok(format!(in alloc; "{{\"runner\":{name},\"number\":{number},\"lease\":{lease}}}\n")?)
        }
    }
}

/// A line for each runner of a table, in the order of their names.
pub fn runners_text(alloc: Global, form: Form, table: &Table) -> Result<Chars, Refusal>
    ensures { Gives (λ text. text) result (Ok (runner_lines form table.now)) }
{
    let runs = table.kept_runs();
    let sites = leg_sites(alloc, runs)?;
    let mut text = String::new(alloc);
    for runner in table.runners() {
        let line = runner_line(alloc, form, runs, sites.as_slice(), runner)?;
        text.push_str(line.as_str())?;
    }
    Ok(Chars::new(text))
}
