//! The groups that a run and its legs ask for, once their names are known, with the keys of these groups. That of a leg is decided when
//! its job opens. Memory for it is taken when the attempt begins, so that neither that nor the leg's arrival can fail.

ghost use Rattle.std.specs.Prelude.{◌≡◌, ◌+◌, IfOk, IfSome, Some, count_by, map, option_and_then, option_copied, slice_get};
ghost use Rattle.std.specs.Option.{option_map_or};
ghost use Rattle.wf_value.specs.Gives.{ErrsOnlyByMemory};
ghost use Rattle.table_model.specs.Runs.{changed_at};
ghost use Rattle.table_bindings.specs.GroupKeys.{AreLater, IsLater, arrivals_in, arrivals_of, arrivals_of_legs, decided, has_no_group, holder_key, key_in};
ghost use Rattle.table_bindings.specs.GroupKeys.{key_of, spent, ticket_in, with_spent};
ghost use Rattle.table_bindings.specs.declared.group_keys.KnownGroup.{KnownGroup as KnownInCode};
ghost use Rattle.table_bindings.specs.declared.group_keys.HolderKey.TheVariants as kept;

use crate::groups::GroupRequest;
use group_name::{GroupKey, KeyRoom};
use std::alloc::Global;
use std::marker::Model;
use std::mem::replace;
use table_model::Holder;
use wf_expr::NeedResults;
use wf_value::{Refusal, TryCopy, copy_items};

/// A group that is known.
#[derive(Drop)]
pub struct KnownGroup {
    pub key: GroupKey,
    /// The key that the holder brings to its group when it arrives.
    pub ticket: Option<GroupKey>,
    /// Whether it has cancel-in-progress.
    pub cancels: bool,
}

/// What is known of the group of a run or of a leg.
#[derive(Drop)]
pub enum HolderKey {
    /// It is not known yet. Memory for its key and for its ticket is taken.
    Later(KeyRoom, KeyRoom),
    NoGroup,
    Known(KnownGroup),
}

impl HolderKey {
    fn later(alloc: Global, request: &GroupRequest) -> Result<Self, Refusal>
        ensures err { ErrsOnlyByMemory result }
        ensures later { IfOk result (IsLater request.now) }
    {
        let key = request.group.room(alloc)?;
        let ticket = request.group.room(alloc)?;
        Ok(HolderKey::Later(key, ticket))
    }

    /// What a run asks for itself, decided with these results.
    pub(crate) fn of_run<R: NeedResults>(
        alloc: Global,
        own: &Option<GroupRequest>,
        results: &R,
    ) -> Result<Self, Refusal>
        ensures err { ErrsOnlyByMemory result }
        ensures own { IfOk result (λ key. key ≡ option_map_or (decided (R.result_of results.now)) own.now kept.NoGroup) }
    {
        match own {
            Some(request) => {
                let later = HolderKey::later(alloc, request)?;
                Ok(later.decided(request, results))
            }
            None => Ok(HolderKey::NoGroup),
        }
    }

    /// What the request gives with the results. It takes no memory.
    fn decided<R: NeedResults>(self, request: &GroupRequest, results: &R) -> Self
        requires { IsLater request.now self }
        ensures { result ≡ decided (R.result_of results.now) request.now }
    {
        let HolderKey::Later(key, ticket) = self else {
            unreachable!()
        };
        match request.group.key_in(key, results) {
            Some(key) => HolderKey::Known(KnownGroup {
                key,
                ticket: request.group.key_in(ticket, results),
                cancels: request.cancels.is_set(results),
            }),
            None => HolderKey::NoGroup,
        }
    }

    /// The key of the group, if it is known and there is one.
    pub fn key(&self) -> Option<&GroupKey>
        ensures { option_copied result ≡ key_in self.now }
    {
        match self {
            HolderKey::Known(known) => Some(&known.key),
            HolderKey::Later(_, _) | HolderKey::NoGroup => None,
        }
    }

    /// Takes the ticket.
    fn spend(&mut self) -> Option<GroupKey>
        ensures ticket { result ≡ ticket_in self.old }
        ensures spent { self.new ≡ spent self.old }
    {
        match self {
            HolderKey::Known(known) => replace(&mut known.ticket, None),
            HolderKey::Later(_, _) | HolderKey::NoGroup => None,
        }
    }

    fn has_no_group(&self) -> bool
        ensures { result ≡ has_no_group self.now }
    {
        match self {
            HolderKey::NoGroup => true,
            HolderKey::Later(_, _) | HolderKey::Known(_) => false,
        }
    }

    /// How many arrivals of the holder are to come.
    fn arrivals(&self) -> usize
        ensures { result ≡ arrivals_in self.now }
    {
        match self {
            HolderKey::Later(_, _) => 1,
            HolderKey::NoGroup => 0,
            HolderKey::Known(known) => match &known.ticket {
                Some(_) => 1,
                None => 0,
            },
        }
    }
}

fn decide_one<R: NeedResults>(key: &mut HolderKey, request: &GroupRequest, results: &R)
    requires { IsLater request.now key.old }
    ensures { key.new ≡ decided (R.result_of results.now) request.now }
{
    let later = replace(key, HolderKey::NoGroup);
    *key = later.decided(request, results);
}

fn decide_each<R: NeedResults>(keys: &mut [HolderKey], requests: &[GroupRequest], results: &R)
    requires { AreLater requests.now keys.old }
    ensures { keys.new ≡ map (decided (R.result_of results.now)) requests.now }
{
    for l in 0..keys.len() {
        let key = &mut keys[l];
        decide_one(key, &requests[l], results);
    }
}

/// What is known of the groups of a job's legs. In contracts it is a list.
#[derive(Drop)]
pub struct LegKeys {
    legs: Vec<HolderKey>,
}

impl Model for LegKeys {
    ghost use Rattle.std.specs.Prelude.{List};
    ghost use Rattle.table_bindings.specs.declared.group_keys.HolderKey.{HolderKey};

    ghost Value = { List HolderKey };

    ghost view = { λ k. k.legs.items };
}

impl LegKeys {
    /// Takes the memory for what the requests give.
    pub(crate) fn take(alloc: Global, requests: &[GroupRequest]) -> Result<Self, Refusal>
        ensures err { ErrsOnlyByMemory result }
        ensures later { IfOk result (AreLater requests.now) }
    {
        let mut legs = Vec::with_capacity(alloc, requests.len())?;
        for l in 0..requests.len() {
            let key = HolderKey::later(alloc, &requests[l])?;
            legs.push(key)?;
        }
        Ok(LegKeys { legs })
    }

    fn get(&self, l: usize) -> Option<&HolderKey>
        ensures { option_copied result ≡ slice_get self.now l }
    {
        self.legs.get(l)
    }

    fn decide<R: NeedResults>(&mut self, requests: &[GroupRequest], results: &R)
        requires { AreLater requests.now self.old }
        ensures { self.new ≡ map (decided (R.result_of results.now)) requests.now }
    {
        decide_each(&mut self.legs, requests, results);
    }

    /// How many legs have no group.
    fn without_group(&self) -> usize
        ensures { result ≡ count_by has_no_group self.now }
    {
        self.legs.iter().filter(|key| key.has_no_group()).count()
    }

    fn spend(&mut self, l: usize) -> Option<GroupKey>
        ensures ticket { result ≡ option_and_then ticket_in (slice_get self.old l) }
        ensures spent { self.new ≡ changed_at l spent self.old }
    {
        if l < self.legs.len() {
            let key = &mut self.legs[l];
            key.spend()
        } else {
            None
        }
    }

    fn arrivals(&self) -> Option<usize>
        ensures { IfSome result (λ n. n ≡ arrivals_of_legs self.now) }
    {
        let mut count: usize = 0;
        for key in self.legs.as_slice() {
            count = count.checked_add(key.arrivals())?;
        }
        Some(count)
    }
}

/// What is known of the group of a run, and of those of its legs, job by job.
#[derive(Drop)]
pub struct GroupKeys {
    own: HolderKey,
    jobs: Vec<LegKeys>,
}

impl Model for GroupKeys {
    ghost use Rattle.table_bindings.specs.GroupKeys.{KeyState};

    ghost Value = { KeyState };

    ghost view = { λ k. record { own = k.own; jobs = k.jobs.items } };
}

impl GroupKeys {
    pub(crate) fn new(own: HolderKey, jobs: Vec<LegKeys>) -> Self
        ensures { result ≡ record { own = own; jobs = jobs.items } }
    {
        GroupKeys { own, jobs }
    }

    fn holder(&self, holder: &Holder) -> Option<&HolderKey>
        ensures { option_copied result ≡ holder_key self.now holder.now }
    {
        match holder {
            Holder::Run(_) => Some(&self.own),
            Holder::Leg(site) => self.jobs.get(site.job)?.get(site.leg),
        }
    }

    /// The key of the group of the run itself or of one of its legs, if the group is known and there is one.
    pub fn key(&self, holder: &Holder) -> Option<&GroupKey>
        ensures { option_copied result ≡ key_of self.now holder.now }
    {
        self.holder(holder)?.key()
    }

    /// Whether the run itself or one of its legs has cancel-in-progress, if its group is known and there is one.
    pub fn cancels(&self, holder: &Holder) -> bool
        ensures { (known : KnownInCode) → holder_key self.now holder.now ≡ Some (kept.Known known) → result ≡ known.cancels }
    {
        match self.holder(holder) {
            Some(HolderKey::Known(known)) => known.cancels,
            _ => false,
        }
    }

    /// Decides the groups of the legs of job `j` with these results. It takes no memory. Returns how many of them have no group, so that
    /// they will not arrive in one.
    /// Promise (Runs, and how they are found): The group of a leg, and whether it has `cancel-in-progress`, is decided once by the results of
    ///   its run's jobs
    /// By: `table_bindings::GroupKeys::{decide, spend, key, cancels}`
    pub fn decide<R: NeedResults>(
        &mut self,
        j: usize,
        requests: &[GroupRequest],
        results: &R,
    ) -> usize
        requires { IfSome (slice_get self.old.jobs j) (AreLater requests.now) }
        ensures own { self.new.own ≡ self.old.own }
        ensures jobs { self.new.jobs ≡ changed_at j (λ legs. map (decided (R.result_of results.now)) requests.now) self.old.jobs }
        ensures without { arrivals_of self.new + result ≡ arrivals_of self.old }
    {
        if j < self.jobs.len() {
            let legs = &mut self.jobs[j];
            legs.decide(requests, results);
            legs.without_group()
        } else {
            0
        }
    }

    /// Takes the key that the run itself or one of its legs brings to its group when it arrives.
    pub fn spend(&mut self, holder: &Holder) -> Option<GroupKey>
        ensures ticket { result ≡ option_and_then ticket_in (holder_key self.old holder.now) }
        ensures spent { self.new ≡ with_spent holder.now self.old }
    {
        match holder {
            Holder::Run(_) => self.own.spend(),
            Holder::Leg(site) => self.spend_leg(site.job, site.leg),
        }
    }

    fn spend_leg(&mut self, j: usize, l: usize) -> Option<GroupKey>
        ensures own { self.new.own ≡ self.old.own }
        ensures ticket { result ≡ option_and_then ticket_in (option_and_then (λ legs. slice_get legs l) (slice_get self.old.jobs j)) }
        ensures spent { self.new.jobs ≡ changed_at j (λ legs. changed_at l spent legs) self.old.jobs }
    {
        if j < self.jobs.len() {
            let legs = &mut self.jobs[j];
            legs.spend(l)
        } else {
            None
        }
    }

    /// How many arrivals of the run and of its legs are to come, if a number can say it.
    pub fn arrivals(&self) -> Option<usize>
        ensures { IfSome result (λ n. n ≡ arrivals_of self.now) }
    {
        let mut count = self.own.arrivals();
        for legs in self.jobs.as_slice() {
            count = count.checked_add(legs.arrivals()?)?;
        }
        Some(count)
    }
}

impl TryCopy for KnownGroup {
    fn copy(&self, alloc: Global) -> Result<Self, Refusal> {
        let ticket = match &self.ticket {
            Some(ticket) => Some(ticket.copy(alloc)?),
            None => None,
        };
        Ok(KnownGroup {
            key: self.key.copy(alloc)?,
            ticket,
            cancels: self.cancels,
        })
    }
}

impl TryCopy for HolderKey {
    fn copy(&self, alloc: Global) -> Result<Self, Refusal> {
        match self {
            HolderKey::Later(key, ticket) => {
                Ok(HolderKey::Later(key.copy(alloc)?, ticket.copy(alloc)?))
            }
            HolderKey::NoGroup => Ok(HolderKey::NoGroup),
            HolderKey::Known(known) => Ok(HolderKey::Known(known.copy(alloc)?)),
        }
    }
}

impl TryCopy for LegKeys {
    fn copy(&self, alloc: Global) -> Result<Self, Refusal> {
        Ok(LegKeys {
            legs: copy_items(alloc, self.legs.as_slice())?,
        })
    }
}

impl TryCopy for GroupKeys {
    fn copy(&self, alloc: Global) -> Result<Self, Refusal> {
        Ok(GroupKeys {
            own: self.own.copy(alloc)?,
            jobs: copy_items(alloc, self.jobs.as_slice())?,
        })
    }
}
