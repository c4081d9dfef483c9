// Making faces.
ghost use Rattle.std.specs.Prelude.{◌≡◌, ℕ, ◌-◌, ◌≢◌, length};
ghost use Rattle.rules.specs.Faces.{turned};
ghost use Rattle.changeover.specs.Table.{jobs_of, gap_of};
ghost use Rattle.face.specs.Jobs.{early_in, late_in, duration_in};
ghost use Rattle.face.specs.Shown.{shown, Verdict, Checked, Made, Windowed};

use super::Face;
use crate::job::{HORIZON, Job, NO_JOB, nth_job};
use changeover::Gaps;
use rules::Window;

// Whether each job of a list is in its limits.
fn all_in_limits(jobs: &[Job]) -> bool
    ensures { Verdict (length jobs.now) (early_in jobs.now) (late_in jobs.now) (duration_in jobs.now) result }
{
    jobs.iter().all(Job::is_in_limits)
}

// The gaps into job i, written as the gaps out of it.
fn turn_row(to: &mut Gaps, from: &Gaps, i: usize)
    requires { jobs_of to.old ≡ jobs_of from.now }
    ensures jobs { jobs_of to.new ≡ jobs_of to.old }
    ensures row { (b : ℕ) → gap_of to.new i b ≡ gap_of from.now b i }
    ensures others { (a b : ℕ) → a ≢ i → gap_of to.new a b ≡ gap_of to.old a b }
{
    // Over job numbers: each call takes both.
    for j in 0..from.jobs() {
        let _ = to.set_gap(i, j, from.gap(j, i) as u16);
    }
}

// The gaps between the same jobs with time running backwards.
fn turned_gaps(gaps: &Gaps) -> Gaps
    ensures jobs { jobs_of result ≡ jobs_of gaps.now }
    ensures gaps { (i j : ℕ) → gap_of result i j ≡ gap_of gaps.now j i }
{
    let mut to = *gaps;
    // Over job numbers: each is handed on.
    for i in 0..gaps.jobs() {
        turn_row(&mut to, gaps, i);
    }
    to
}

impl Face {
    // The face of these jobs, or none where one is out of its limits.
    fn checked(jobs: [Job; 32], gaps: &Gaps) -> Option<Face>
        ensures { Checked (early_in jobs) (late_in jobs) (duration_in jobs) gaps.now result }
    {
        if !all_in_limits(&jobs[..gaps.jobs()]) {
            return None;
        }
        Some(Face { jobs, gaps: *gaps })
    }

    // The face of these jobs, or none where they are not as many as the gaps are of, or one is out of its limits:
    // 1 to 100,000 minutes, in a window that is long enough and ends by minute 1,000,000.
    pub fn new(jobs: &[Job], gaps: &Gaps) -> Option<Face>
        ensures { Made jobs.now gaps.now result }
    {
        if jobs.len() != gaps.jobs() {
            return None;
        }
        let mut all = [NO_JOB; 32];
        for (j, job) in all[..jobs.len()].iter_mut().enumerate() {
            *job = nth_job(jobs, j);
        }
        Face::checked(all, gaps)
    }

    // A job in another window.
    fn job_in(&self, j: usize, window: Window) -> Job
        ensures { result ≡ record { duration = (shown self.now).duration j; early = window.early; late = window.late } }
    {
        let Window { early, late } = window;
        Job {
            duration: self.duration(j),
            early,
            late,
        }
    }

    // The same jobs in other windows, or none where one is then out of its limits.
    pub fn with_windows(&self, windows: &[Window; 32]) -> Option<Face>
        ensures { Windowed self.now windows.now result }
    {
        let mut jobs = self.jobs;
        for (j, job) in jobs[..self.jobs()].iter_mut().enumerate() {
            *job = self.job_in(j, windows[j]);
        }
        Face::checked(jobs, &self.gaps)
    }

    // A job with time running backwards from the last minute.
    fn turned_job(&self, j: usize) -> Job
        ensures { result ≡ record { duration = (shown self.now).duration j; early = 1000000 - (shown self.now).late j; late = 1000000 - (shown self.now).early j } }
    {
        Job {
            duration: self.duration(j),
            early: HORIZON - self.late(j),
            late: HORIZON - self.early(j),
        }
    }

    // The same jobs with time running backwards from the last minute.
    pub fn turned(&self) -> Face
        ensures { shown result ≡ turned (shown self.now) }
    {
        let mut jobs = self.jobs;
        for (j, job) in jobs[..self.jobs()].iter_mut().enumerate() {
            *job = self.turned_job(j);
        }
        Face {
            jobs,
            gaps: turned_gaps(&self.gaps),
        }
    }
}
