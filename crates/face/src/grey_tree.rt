// A tree of white and grey leaves that holds the jobs of two sets, each at its place.
ghost use Rattle.std.specs.Prelude.{◌≡◌, ℕ, ◌<◌, Bool, true, false};
ghost use Rattle.rules.specs.Faces.{Face as Shown};
ghost use Rattle.rules.specs.Places.{E};
ghost use Rattle.rules.specs.Rules.{with_job};
ghost use Rattle.face.specs.Readings.{bound_of, read};
ghost use Rattle.face.specs.WhiteTrees.{but};
ghost use Rattle.face.specs.GreyTrees.{HoldsBoth, Apart, TellsJobs};

use crate::nodes::{no_nodes, put_job};
use crate::reading::Reading;
use changeover::Numbers;
use theta::tree;
use theta_lambda::grey_root;
use theta_nodes::Grey;

#[derive(Drop)]
pub struct GreyTree {
    nodes: [Grey; 63],
}

// What the root tells: when the white jobs can finish, the latest with one grey job more, and the job that makes it later.
#[derive(Clone, Copy)]
pub struct Latest {
    pub white: Option<u32>,
    pub with_grey: Option<u32>,
    pub job: Option<usize>,
}

// What a root tells, with the job that is responsible.
fn told(root: &Grey, job: Option<usize>) -> Latest
    ensures white { result.white ≡ root.now.white.finish }
    ensures grey { result.with_grey ≡ root.now.grey.finish }
    ensures job { result.job ≡ job }
{
    Latest {
        white: root.white.finish,
        with_grey: root.grey.finish,
        job,
    }
}

impl GreyTree {
    // The tree of no jobs.
    pub fn new() -> GreyTree
        ensures { (F : Shown) (b : ℕ → ℕ) (S G : ℕ → Bool) → b 0 ≡ 0 → ((j : ℕ) → j < F.n → S j ≡ false) → ((j : ℕ) → j < F.n → G j ≡ false) → HoldsBoth F b S G result }
    {
        GreyTree { nodes: no_nodes() }
    }

    // Puts a job in, white.
    pub fn enter<W: Numbers>(&mut self, reading: &Reading<'_, W>, j: usize)
        ensures { (S G : ℕ → Bool) → HoldsBoth (read reading.now) (W.Numbers.at (bound_of reading.now)) S G self.old → HoldsBoth (read reading.now) (W.Numbers.at (bound_of reading.now)) (with_job j S) (but j G) self.new }
    {
        put_job(&mut self.nodes, reading, j);
    }

    // Turns the leaf of a job, which is there, grey.
    fn grey_job<W: Numbers>(&mut self, reading: &Reading<'_, W>, j: usize)
        requires { j < (read reading.now).n }
        ensures { (S G : ℕ → Bool) → S j ≡ true → HoldsBoth (read reading.now) (W.Numbers.at (bound_of reading.now)) S G self.old → HoldsBoth (read reading.now) (W.Numbers.at (bound_of reading.now)) (but j S) (with_job j G) self.new }
    {
        let _ = tree::grey(reading.bound, &mut self.nodes, reading.place(j));
    }

    // Turns a white job grey.
    pub fn grey<W: Numbers>(&mut self, reading: &Reading<'_, W>, j: usize)
        ensures { (S G : ℕ → Bool) → S j ≡ true → HoldsBoth (read reading.now) (W.Numbers.at (bound_of reading.now)) S G self.old → HoldsBoth (read reading.now) (W.Numbers.at (bound_of reading.now)) (but j S) (with_job j G) self.new }
    {
        if j < reading.orders.face.jobs() {
            self.grey_job(reading, j);
        }
    }

    // Empties the leaf of a job, which is there.
    fn remove_job<W: Numbers>(&mut self, reading: &Reading<'_, W>, j: usize)
        requires { j < (read reading.now).n }
        ensures { (S G : ℕ → Bool) → HoldsBoth (read reading.now) (W.Numbers.at (bound_of reading.now)) S G self.old → HoldsBoth (read reading.now) (W.Numbers.at (bound_of reading.now)) (but j S) (but j G) self.new }
    {
        let _ = tree::drop(reading.bound, &mut self.nodes, reading.place(j));
    }

    // Takes a job out.
    pub fn remove<W: Numbers>(&mut self, reading: &Reading<'_, W>, j: usize)
        ensures { (S G : ℕ → Bool) → HoldsBoth (read reading.now) (W.Numbers.at (bound_of reading.now)) S G self.old → HoldsBoth (read reading.now) (W.Numbers.at (bound_of reading.now)) (but j S) (but j G) self.new }
    {
        if j < reading.orders.face.jobs() {
            self.remove_job(reading, j);
        }
    }

    // What the root tells of the white and the grey jobs.
    pub fn latest<W: Numbers>(&self, reading: &Reading<'_, W>) -> Latest
        ensures white { (S G : ℕ → Bool) → Apart (read reading.now) S G → HoldsBoth (read reading.now) (W.Numbers.at (bound_of reading.now)) S G self.now → result.white ≡ E (read reading.now) (W.Numbers.at (bound_of reading.now)) S }
        ensures grey { (S G : ℕ → Bool) → Apart (read reading.now) S G → HoldsBoth (read reading.now) (W.Numbers.at (bound_of reading.now)) S G self.now → TellsJobs (read reading.now) (W.Numbers.at (bound_of reading.now)) S G result.with_grey result.job }
    {
        let Ok(root) = grey_root(reading.bound, &self.nodes) else {
            unreachable()
        };
        // Not `map`: its closure, in generic code, would have to repeat the promise of `job_at`.
        let job = match root.responsible {
            Some(place) => Some(reading.job_at(place)),
            None => None,
        };
        told(&root, job)
    }
}
