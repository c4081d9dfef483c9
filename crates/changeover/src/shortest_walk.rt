// The bound by the shortest walk: e gaps one after another, in which a job may come back, but not right after itself.
ghost use Rattle.std.specs.Prelude.{◌≡◌, ℕ, ◌+◌, ◌<◌, ◌≤◌, length, slice_index};
ghost use Rattle.changeover.specs.Rows.{Lawful};
ghost use Rattle.changeover.specs.Table.{jobs_of, gap_of};
ghost use Rattle.changeover.specs.Kinds.{least, but, shortest_walk};
ghost use Rattle.changeover.specs.Rules.{ShortestWalkRule};
ghost use Rattle.std.proofs.Common.{arith, rules};
ghost use Rattle.std.proofs.lemmas.List.{get_or_past};
ghost use Rattle.changeover.specs.Laws.{walk_lawful};

use crate::bound::{Bound, Numbers};
use crate::gaps::Gaps;
use crate::least::least;
use std::array;

#[derive(Clone, Copy)]
pub struct ShortestWalk;

// Numbers that are written out.
#[derive(Clone, Copy)]
pub struct Listed {
    places: [u32; 32],
    ghost long: { length places ≡ 32 },
    ghost first: { slice_index places 0 ≡ 0 },
    ghost small: { (e : ℕ) → slice_index places e ≤ 400000 },
}

impl Numbers for Listed {
    ghost at = { λ b e. slice_index b.places e };

    ghost first = { first_of (Prim.search rules, Prim.grind (arith, Self.row.coded.inj)) };

    ghost bounded = { first_of (Prim.search rules, Prim.grind (arith, Self.row.coded.inj)) };

    ghost past = { λ b e h. get_or_past b.places e 0 (omega arith) };

    fn number(&self, e: usize) -> u32 {
        self.places.get(e).copied().unwrap_or(0)
    }
}

// The least that a walk of so many gaps into each job adds up to.
#[derive(Clone, Copy)]
struct Walks {
    into: [u32; 32],
    ghost long: { length into ≡ 32 },
    ghost small: { (j : ℕ) → slice_index into j ≤ 400000 },
}

impl Walks {
    // The least that a walk into job j adds up to that is one gap longer.
    fn longer_into(&self, gaps: &Gaps, j: usize) -> u32
        ensures { result ≡ least 400000 (jobs_of gaps.now) (but 400000 j (λ i. slice_index self.now.into i + gap_of gaps.now i j)) }
    {
        least(
            gaps.jobs(),
            400_000,
            |i| if i == j {
                400_000
            } else {
                self.into[i] + gaps.gap(i, j)
            },
        )
    }

    // The walks that are one gap longer.
    fn longer(&self, gaps: &Gaps) -> Walks
        ensures { (j : ℕ) → j < jobs_of gaps.now → slice_index result.into j ≡ least 400000 (jobs_of gaps.now) (but 400000 j (λ i. slice_index self.now.into i + gap_of gaps.now i j)) }
    {
        Walks {
            into: array::from_fn(|j| if j < gaps.jobs() {
                self.longer_into(gaps, j)
            } else {
                0
            }),
        }
    }

    // The least of the walks into each job.
    fn shortest(&self, gaps: &Gaps) -> u32
        ensures { result ≡ least 400000 (jobs_of gaps.now) (λ j. slice_index self.now.into j) }
    {
        least(gaps.jobs(), 400_000, |j| self.into[j])
    }
}

impl Bound for ShortestWalk {
    type Worked = Listed;

    ghost becomes = { λ _ n gap. shortest_walk n gap };

    ghost keeps = { λ b n gap. walk_lawful n gap };

    fn work_out(self, gaps: &Gaps) -> Listed
        ensures numbers { (e : ℕ) → slice_index result.places e ≡ shortest_walk (jobs_of gaps.now) (gap_of gaps.now) e }
        ensures lawful { Lawful (jobs_of gaps.now) (gap_of gaps.now) (λ e. slice_index result.places e) }
        ensures rule { ShortestWalkRule (jobs_of gaps.now) (gap_of gaps.now) (λ e. slice_index result.places e) }
    {
        let mut places = [0; 32];
        let mut walks = Walks { into: [0; 32] };
        for place in &mut places[..gaps.jobs()] {
            *place = walks.shortest(gaps);
            walks = walks.longer(gaps);
        }
        Listed { places }
    }
}
