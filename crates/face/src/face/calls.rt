// Reading a face. A number that is read is a plain one: what is known of it stands on the call, and in no type of its own.
ghost use Rattle.std.specs.Prelude.{◌≡◌, ℕ, ◌≤◌};
ghost use Rattle.changeover.specs.Table.{jobs_of, gap_of};
ghost use Rattle.rules.specs.Faces.{earliest_finish, latest_start};
ghost use Rattle.face.specs.Shown.{shown, job_of, Room};

use super::Face;
use crate::job::{Job, nth_job};
use changeover::Gaps;

impl Face {
    // How many jobs there are: at most 32.
    pub fn jobs(&self) -> usize
        ensures value { result ≡ (shown self.now).n }
        ensures few { result ≤ 32 }
    {
        self.gaps().jobs()
    }

    // A job: no job where there is none.
    fn job(&self, j: usize) -> Job
        ensures value { result ≡ job_of (shown self.now) j }
        ensures room { Room (shown self.now) j }
        ensures short { result.duration ≤ 100000 }
    {
        nth_job(&self.jobs[..self.jobs()], j)
    }

    // The early end of a job's window; 0 where there is no such job.
    pub fn early(&self, j: usize) -> u32
        ensures value { result ≡ (shown self.now).early j }
        ensures small { result ≤ 1000000 }
    {
        self.job(j).early
    }

    // The late end of a job's window; 0 where there is no such job.
    pub fn late(&self, j: usize) -> u32
        ensures value { result ≡ (shown self.now).late j }
        ensures small { result ≤ 1000000 }
    {
        self.job(j).late
    }

    // How long a job lasts; 0 where there is no such job.
    pub fn duration(&self, j: usize) -> u32
        ensures value { result ≡ (shown self.now).duration j }
        ensures small { result ≤ 100000 }
        ensures room { Room (shown self.now) j }
    {
        self.job(j).duration
    }

    // The gap from job i to job j; 0 where one of them is no job.
    pub fn gap(&self, i: usize, j: usize) -> u32
        ensures value { result ≡ (shown self.now).gap i j }
        ensures small { result ≤ 12000 }
    {
        self.gaps().gap(i, j)
    }

    // The gaps between the jobs.
    pub fn gaps(&self) -> &Gaps
        ensures jobs { jobs_of result.now ≡ (shown self.now).n }
        ensures gaps { gap_of result.now ≡ (shown self.now).gap }
    {
        &self.gaps
    }

    // When a job can finish at the earliest.
    pub fn earliest_finish(&self, j: usize) -> u32
        ensures value { result ≡ earliest_finish (shown self.now) j }
        ensures small { result ≤ 1000000 }
    {
        self.early(j) + self.duration(j)
    }

    // When a job has to start at the latest.
    pub fn latest_start(&self, j: usize) -> u32
        ensures value { result ≡ latest_start (shown self.now) j }
        ensures small { result ≤ 1000000 }
    {
        self.late(j) - self.duration(j)
    }
}
