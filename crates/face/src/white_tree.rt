// A tree of white leaves that holds the jobs of a set, each at its place.
ghost use Rattle.std.specs.Prelude.{◌≡◌, ℕ, ◌<◌, Bool, false, slice_index_or};
ghost use Rattle.theta_nodes.specs.White.{empty_white};
ghost use Rattle.rules.specs.Faces.{Face as Shown};
ghost use Rattle.rules.specs.Places.{E};
ghost use Rattle.rules.specs.Rules.{with_job};
ghost use Rattle.face.specs.Readings.{bound_of, read};
ghost use Rattle.face.specs.WhiteTrees.{Holds, but};

use crate::nodes::{no_nodes, put_job};
use crate::reading::Reading;
use changeover::Numbers;
use theta::tree;
use theta_nodes::White;

#[derive(Drop)]
pub struct WhiteTree {
    nodes: [White; 63],
}

impl WhiteTree {
    // The tree of no jobs.
    pub fn new() -> WhiteTree
        ensures { (F : Shown) (b : ℕ → ℕ) (S : ℕ → Bool) → b 0 ≡ 0 → ((j : ℕ) → j < F.n → S j ≡ false) → Holds F b S result }
    {
        WhiteTree { nodes: no_nodes() }
    }

    // Puts a job in.
    pub fn enter<W: Numbers>(&mut self, reading: &Reading<'_, W>, j: usize)
        ensures { (S : ℕ → Bool) → Holds (read reading.now) (W.Numbers.at (bound_of reading.now)) S self.old → Holds (read reading.now) (W.Numbers.at (bound_of reading.now)) (with_job j S) self.new }
    {
        put_job(&mut self.nodes, reading, j);
    }

    // The root.
    fn root(&self) -> White
        ensures { result ≡ slice_index_or self.now.nodes 0 empty_white }
    {
        self.nodes[0]
    }

    // When the jobs can finish at the earliest, by the bound.
    pub fn finish(&self) -> Option<u32>
        ensures { (F : Shown) (b : ℕ → ℕ) (S : ℕ → Bool) → Holds F b S self.now → result ≡ E F b S }
    {
        self.root().finish
    }

    // When the jobs but i, which is one, can finish at the earliest. The tree is left as it was.
    fn finish_without_job<W: Numbers>(&mut self, reading: &Reading<'_, W>, i: usize) -> Option<u32>
        requires { i < (read reading.now).n }
        ensures value { (S : ℕ → Bool) → Holds (read reading.now) (W.Numbers.at (bound_of reading.now)) S self.old → result ≡ E (read reading.now) (W.Numbers.at (bound_of reading.now)) (but i S) }
        ensures kept { (S : ℕ → Bool) → Holds (read reading.now) (W.Numbers.at (bound_of reading.now)) S self.old → Holds (read reading.now) (W.Numbers.at (bound_of reading.now)) S self.new }
    {
        let Ok((token, _)) = tree::lift(reading.bound, &mut self.nodes, reading.place(i)) else {
            unreachable()
        };
        let finish = self.finish();
        match tree::set_back(reading.bound, &mut self.nodes, token) {
            Ok(_) => finish,
            Err(_) => unreachable(),
        }
    }

    // When the jobs but i can finish at the earliest, by the bound. The tree is left as it was.
    pub fn finish_without<W: Numbers>(&mut self, reading: &Reading<'_, W>, i: usize) -> Option<u32>
        ensures value { (S : ℕ → Bool) → Holds (read reading.now) (W.Numbers.at (bound_of reading.now)) S self.old → result ≡ E (read reading.now) (W.Numbers.at (bound_of reading.now)) (but i S) }
        ensures kept { (S : ℕ → Bool) → Holds (read reading.now) (W.Numbers.at (bound_of reading.now)) S self.old → Holds (read reading.now) (W.Numbers.at (bound_of reading.now)) S self.new }
    {
        if i >= reading.orders.face.jobs() {
            return self.finish();
        }
        self.finish_without_job(reading, i)
    }
}
