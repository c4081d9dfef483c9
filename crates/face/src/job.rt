// A job as it is handed in.
ghost use Rattle.std.specs.Prelude.{◌≡◌, slice_index_or};
ghost use Rattle.face.specs.Limits.{in_limits};
ghost use Rattle.face.specs.Jobs.{no_job};

// The last minute.
pub(crate) const HORIZON: u32 = 1_000_000;

// How many minutes a job lasts, and the window that it has to lie in.
#[derive(Clone, Copy)]
pub struct Job {
    pub duration: u32,
    pub early: u32,
    pub late: u32,
}

// No job, where there is none.
pub(crate) const NO_JOB: Job = Job {
    duration: 0,
    early: 0,
    late: 0,
};

// Job j of a list; no job past its end.
pub(crate) fn nth_job(jobs: &[Job], j: usize) -> Job
    ensures { result ≡ slice_index_or jobs.now j no_job }
{
    jobs.get(j).copied().unwrap_or(NO_JOB)
}

impl Job {
    // Whether the job is in its limits.
    pub(crate) fn is_in_limits(&self) -> bool
        ensures { result ≡ in_limits self.now.duration self.now.early self.now.late }
    {
        (1..=100_000).contains(&self.duration)
            && self.late <= HORIZON
            && self.early <= self.late
            && self.duration <= self.late - self.early
    }
}
