// Making, writing and reading a table of gaps.
ghost use Rattle.std.specs.Prelude.{◌≡◌, ℕ, ◌<◌, ◌≤◌, true, if◌then◌else◌, Ok, Err, MatchOption};
ghost use Rattle.changeover.specs.Table.{jobs_of, gap_of, among, with_gap};

use super::Gaps;
use crate::refusals::NoSuchJob;

impl Gaps {
    // A table of so many jobs with no gap between any two, or none where there are more than 32.
    pub fn new(jobs: usize) -> Option<Gaps>
        ensures { MatchOption result (32 < jobs) (λ g. (jobs ≤ 32) × (jobs_of g ≡ jobs) × ((i j : ℕ) → gap_of g i j ≡ 0)) }
    {
        if jobs > 32 {
            return None;
        }
        Some(Gaps {
            jobs,
            table: [0; 1024],
        })
    }

    // How many jobs there are: at most 32.
    pub fn jobs(&self) -> usize
        ensures value { result ≡ jobs_of self.now }
        ensures few { result ≤ 32 }
    {
        self.jobs
    }

    // The gap from job i to job j, at most 12,000; 0 where one of them is not a job of the table.
    pub fn gap(&self, i: usize, j: usize) -> u32
        ensures value { result ≡ gap_of self.now i j }
        ensures small { result ≤ 12000 }
    {
        if i < self.jobs && j < self.jobs {
            u32::from(self.table[32 * i + j])
        } else {
            0
        }
    }

    // Writes the gap from job i to job j; one above 12,000 counts as 12,000.
    pub fn set_gap(&mut self, i: usize, j: usize, minutes: u16) -> Result<(), NoSuchJob>
        ensures answer { result ≡ (if among (jobs_of self.old) i j then Ok tt else Err (record {})) }
        ensures jobs { jobs_of self.new ≡ jobs_of self.old }
        ensures gaps { (a b : ℕ) → gap_of self.new a b ≡ with_gap (jobs_of self.old) (gap_of self.old) i j minutes a b }
    {
        if i >= self.jobs || j >= self.jobs {
            return Err(NoSuchJob);
        }
        self.table[32 * i + j] = minutes.min(12_000);
        Ok(())
    }
}
