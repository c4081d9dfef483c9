// Rule 6: edge finding.
ghost use Rattle.std.specs.Prelude.{◌≡◌, ℕ, ◌<◌, Bool, true, false, length};
ghost use Rattle.rules.specs.Rules.{edge_early};
ghost use Rattle.face.specs.Readings.{bound_of, read};
ghost use Rattle.face.specs.GreyTrees.{HoldsBoth};
ghost use Rattle.filtering.specs.Edges.{crowded, flagged, Coloured, Blamed, Moved};
ghost use Rattle.filtering.specs.Ends.{Each};

use crate::overload::Calm;
use crate::sets::{after, is_above, is_up_to};
use changeover::Numbers;
use face::{GreyTree, Reading};

// The tree with every job in it, white.
fn all_white<W: Numbers>(reading: &Reading<'_, W>) -> GreyTree
    ensures { (S G : ℕ → Bool) → ((k : ℕ) → k < (read reading.now).n → S k ≡ true) → ((k : ℕ) → k < (read reading.now).n → G k ≡ false) → HoldsBoth (read reading.now) (W.Numbers.at (bound_of reading.now)) S G result }
{
    let mut tree = GreyTree::new();
    // Over job numbers: each is handed on.
    for j in 0..reading.face().jobs() {
        tree.enter(reading, j);
    }
    tree
}

// A tree of the jobs, flags of those that are grey in it, and the early ends found so far, 0 for none.
#[derive(Drop)]
struct Edges {
    tree: GreyTree,
    grey: [bool; 32],
    early: [u32; 32],
}

impl Edges {
    // A grey job with which the white ones, j and all before it in late order, cannot finish by j's late end, if there is one.
    fn blamed<W: Numbers>(&self, reading: &Reading<'_, W>, j: usize) -> Option<usize>
        requires { Coloured (read reading.now) (W.Numbers.at (bound_of reading.now)) j self.now.grey self.now.tree }
        ensures { Blamed (read reading.now) (W.Numbers.at (bound_of reading.now)) j (flagged self.now.grey) result }
    {
        let latest = self.tree.latest(reading);
        let late = reading.face().late(j);
        if is_above(latest.with_grey, late) {
            latest.job
        } else {
            None
        }
    }

    // Takes out each grey job with which j and all before it cannot finish by j's late end, and notes its new early end.
    fn resolve<W: Numbers>(&mut self, reading: &Reading<'_, W>, j: usize)
        requires { Coloured (read reading.now) (W.Numbers.at (bound_of reading.now)) j self.old.grey self.old.tree }
        ensures long { (length self.new.grey ≡ 32) × (length self.new.early ≡ 32) }
        ensures coloured { Coloured (read reading.now) (W.Numbers.at (bound_of reading.now)) j self.new.grey self.new.tree }
        ensures moved { (k : ℕ) → k < (read reading.now).n → Moved (read reading.now) (W.Numbers.at (bound_of reading.now)) j self.old.grey self.old.early self.new.grey self.new.early k }
        ensures quiet { (k : ℕ) → k < (read reading.now).n → flagged self.new.grey k ≡ true → crowded (read reading.now) (W.Numbers.at (bound_of reading.now)) k j ≡ false }
    {
        let finish = self.tree.latest(reading).white;
        while let Some(i) = self.blamed(reading, j) {
            let face = reading.face();
            self.early[i] = after(face, finish, |k| is_up_to(face, j, k), i).unwrap_or(0);
            self.grey[i] = false;
            self.tree.remove(reading, i);
        }
    }
}

impl<W: Numbers> Calm<'_, W> {
    // Each job's early end after the last job of late order with which it cannot finish in time; 0 where there is none.
    pub(crate) fn edge_earlies(&self) -> [u32; 32]
        ensures { Each (read self.now.reading.now).n (edge_early (read self.now.reading.now) (W.Numbers.at (bound_of self.now.reading.now))) result }
    {
        let reading = self.reading;
        let mut edges = Edges {
            tree: all_white(reading),
            grey: [false; 32],
            early: [0; 32],
        };
        for t in (0..reading.face().jobs()).rev() {
            let j = reading.late_job(t);
            edges.resolve(reading, j);
            edges.tree.grey(reading, j);
            edges.grey[j] = true;
        }
        edges.early
    }
}
