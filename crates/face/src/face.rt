// A face: the jobs that a half round reads. Its calls stand below, in calls.rt.
ghost use Rattle.changeover.specs.Table.{jobs_of};
ghost use Rattle.face.specs.Limits.{AllIn};
ghost use Rattle.face.specs.Jobs.{early_in, late_in, duration_in};

use crate::job::Job;
use changeover::Gaps;

mod calls;
mod make;

// At most 32 jobs in card order, each in its limits, and the gaps between them.
// There is no heap: 32 places, and as many jobs in them as the gaps are of.
#[derive(Clone, Copy)]
pub struct Face {
    jobs: [Job; 32],
    gaps: Gaps,
    ghost fits: { AllIn (jobs_of gaps) (early_in jobs) (late_in jobs) (duration_in jobs) },
}
