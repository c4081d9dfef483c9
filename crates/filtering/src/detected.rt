// Rule 4, detectable precedences, and rule 5, not-last.
ghost use Rattle.std.specs.Prelude.{◌≡◌, ℕ};
ghost use Rattle.rules.specs.Faces.{Face as Shown};
ghost use Rattle.rules.specs.Rules.{after, detected_early, not_last_late};
ghost use Rattle.face.specs.Readings.{bound_of, read};
ghost use Rattle.face.specs.Shown.{shown};
ghost use Rattle.face.specs.WhiteTrees.{but};
ghost use Rattle.filtering.specs.Ends.{late_from, Each};
ghost use Rattle.filtering.specs.Sets.{Filled, FilledBelow, under};

use crate::sets::{after, greatest_end, is_above, is_other_under};
use changeover::Numbers;
use face::{Face, Reading, WhiteTree};

// A tree of the first jobs by latest start, and how many they are.
#[derive(Drop)]
struct Filling {
    tree: WhiteTree,
    count: usize,
}

impl Filling {
    // The tree of no jobs.
    fn new() -> Filling
        ensures { (F : Shown) (b : ℕ → ℕ) → b 0 ≡ 0 → Filled F b result.count 0 result.tree }
    {
        Filling {
            tree: WhiteTree::new(),
            count: 0,
        }
    }

    // Puts in the jobs that have to start before a limit.
    fn fill<W: Numbers>(&mut self, reading: &Reading<'_, W>, limit: u32)
        requires { FilledBelow (read reading.now) (W.Numbers.at (bound_of reading.now)) self.old.count limit self.old.tree }
        ensures { Filled (read reading.now) (W.Numbers.at (bound_of reading.now)) self.new.count limit self.new.tree }
    {
        for q in self.count..reading.face().jobs() {
            let j = reading.starting_job(q);
            if reading.face().latest_start(j) >= limit {
                return;
            }
            self.tree.enter(reading, j);
            self.count += 1;
        }
    }

    // When the other jobs than i that have to start before a limit, and the least gap from them to i, are over at the earliest.
    fn after_others<W: Numbers>(
        &mut self,
        reading: &Reading<'_, W>,
        i: usize,
        limit: u32,
    ) -> Option<u32>
        requires { FilledBelow (read reading.now) (W.Numbers.at (bound_of reading.now)) self.old.count limit self.old.tree }
        ensures value { result ≡ after (read reading.now) (W.Numbers.at (bound_of reading.now)) (but i (under (read reading.now) limit)) i }
        ensures filled { Filled (read reading.now) (W.Numbers.at (bound_of reading.now)) self.new.count limit self.new.tree }
    {
        self.fill(reading, limit);
        let finish = self.tree.finish_without(reading, i);
        let face = reading.face();
        after(face, finish, |k| is_other_under(face, i, limit, k), i)
    }
}

// Each job's early end after the jobs that have to come before it.
// A loop, not a map: each turn fills the tree of the turns before it further.
pub(crate) fn detected_earlies<W: Numbers>(reading: &Reading<'_, W>) -> [u32; 32]
    ensures { Each (read reading.now).n (detected_early (read reading.now) (W.Numbers.at (bound_of reading.now))) result }
{
    let mut early = [0; 32];
    let mut filling = Filling::new();
    for t in 0..reading.face().jobs() {
        let i = reading.finishing_job(t);
        let limit = reading.face().earliest_finish(i);
        early[i] = filling.after_others(reading, i, limit).unwrap_or(0);
    }
    early
}

// A job's late end where the others that have to start before it, and the least gap after them, are over at such a time.
fn not_last_late(face: &Face, i: usize, over: Option<u32>) -> u32
    ensures { result ≡ late_from (shown face.now) over i }
{
    let late = face.late(i);
    if is_above(over, face.latest_start(i)) {
        greatest_end(face, |k| is_other_under(face, i, late, k), i)
    } else {
        late
    }
}

// Each job's late end before the jobs of which one has to come after it.
// A loop, not a map: each turn fills the tree of the turns before it further.
pub(crate) fn not_last_lates<W: Numbers>(reading: &Reading<'_, W>) -> [u32; 32]
    ensures { Each (read reading.now).n (not_last_late (read reading.now) (W.Numbers.at (bound_of reading.now))) result }
{
    let mut late = [0; 32];
    let mut filling = Filling::new();
    for t in 0..reading.face().jobs() {
        let i = reading.late_job(t);
        let limit = reading.face().late(i);
        let over = filling.after_others(reading, i, limit);
        late[i] = not_last_late(reading.face(), i, over);
    }
    late
}
