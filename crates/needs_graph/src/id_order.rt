ghost use Rattle.std.specs.Prelude.{◌≡◌};
ghost use Rattle.std.specs.Cmp.Lexicographic.{slice_cmp};
ghost use Rattle.std.specs.Ordering.{is_lt, nat_cmp};
ghost use Rattle.needs_graph.specs.Needs.{ids_rise};

use crate::job_needs::JobNeeds;

fn is_below(job: &JobNeeds<'_>, next: &JobNeeds<'_>) -> bool
    ensures { result ≡ is_lt (slice_cmp nat_cmp job.now.id next.now.id) }
{
    job.id().as_str() < next.id().as_str()
}

/// Whether the ids of the jobs strictly increase in byte order.
pub fn ids_rise(jobs: &[JobNeeds<'_>]) -> bool
    ensures { result ≡ ids_rise jobs.now }
{
    jobs.is_sorted_by(|job, next| is_below(job, next))
}
