// A bound for tests: numbers that are given, each cut to the shortest walk's.
ghost use Rattle.std.specs.Prelude.{min, slice_index};
ghost use Rattle.changeover.specs.Kinds.{shortest_walk};
ghost use Rattle.std.proofs.Common.{arith};
ghost use Rattle.std.proofs.lemmas.List.{get_or_past};
ghost use Rattle.changeover.specs.Laws.{walk_lawful};

use changeover::{Bound, Gaps, Listed, Numbers, ShortestWalk};

#[derive(Clone, Copy)]
pub struct Scripted {
    pub given: [u32; 32],
}

// The given numbers beside the walk's.
#[derive(Clone, Copy)]
pub struct Lesser {
    given: [u32; 32],
    walk: Listed,
}

impl Numbers for Lesser {
    ghost at = { λ b e. min (slice_index b.given e) (slice_index b.walk.places e) };

    ghost first = { λ b. omega (arith, b.walk.first) };

    ghost bounded = { λ b e. omega (arith, b.walk.small e) };

    ghost past = { λ b e h. omega (arith, get_or_past b.walk.places e 0 (omega (arith, b.walk.long))) };

    fn number(&self, e: usize) -> u32 {
        if e < 32 {
            self.given[e].min(self.walk.number(e))
        } else {
            0
        }
    }
}

impl Bound for Scripted {
    type Worked = Lesser;

    ghost becomes = { λ b n gap e. min (slice_index b.given e) (shortest_walk n gap e) };

    ghost keeps = { λ b n gap.
        record {
          past = λ e h. omega (arith, (walk_lawful n gap).past e h);
          under = λ e row r. omega (arith, (walk_lawful n gap).under e row r);
        } };

    fn work_out(self, gaps: &Gaps) -> Lesser {
        let given = self.given;
        let walk = ShortestWalk.work_out(gaps);
        Lesser { given, walk }
    }
}
