// The bound by the least gap between two different jobs.
ghost use Rattle.std.specs.Prelude.{◌≡◌, ℕ, ◌≤◌};
ghost use Rattle.changeover.specs.Rows.{Lawful};
ghost use Rattle.changeover.specs.Table.{jobs_of, gap_of};
ghost use Rattle.changeover.specs.Kinds.{least, but, least_gap, multiples};
ghost use Rattle.changeover.specs.Rules.{LeastGapRule};
ghost use Rattle.changeover.specs.Laws.{multiples_small, multiples_lawful};
ghost use Rattle.std.proofs.Common.{rules, arith};

use crate::bound::{Bound, Numbers};
use crate::gaps::Gaps;
use crate::least::least;

#[derive(Clone, Copy)]
pub struct LeastGap;

// e times a step, for e below the number of jobs.
#[derive(Clone, Copy)]
pub struct Multiples {
    jobs: usize,
    step: u32,
    ghost few: { jobs ≤ 32 },
    ghost small: { step ≤ 12000 },
}

impl Numbers for Multiples {
    ghost at = { λ b. multiples b.jobs b.step };

    ghost first = { first_of (Prim.search rules, Prim.grind (arith, Self.row.coded.inj)) };

    ghost bounded = { λ b e. multiples_small b.jobs b.step e b.few b.small };

    ghost past = { first_of (Prim.search rules, Prim.grind (arith, Self.row.coded.inj)) };

    fn number(&self, e: usize) -> u32 {
        if e < self.jobs {
            e as u32 * self.step
        } else {
            0
        }
    }
}

// The least gap from job i to another job.
fn least_from(gaps: &Gaps, i: usize) -> u32
    ensures { result ≡ least 12000 (jobs_of gaps.now) (but 12000 i (gap_of gaps.now i)) }
{
    least(
        gaps.jobs(),
        12_000,
        |j| if j == i { 12_000 } else { gaps.gap(i, j) },
    )
}

// The least gap between two different jobs.
fn least_of_all(gaps: &Gaps) -> u32
    ensures { result ≡ least_gap (jobs_of gaps.now) (gap_of gaps.now) }
{
    least(gaps.jobs(), 12_000, |i| least_from(gaps, i))
}

impl Bound for LeastGap {
    type Worked = Multiples;

    ghost becomes = { λ _ n gap. multiples n (least_gap n gap) };

    ghost keeps = { λ b n gap. multiples_lawful n gap };

    fn work_out(self, gaps: &Gaps) -> Multiples
        ensures numbers { (e : ℕ) → multiples result.jobs result.step e ≡ multiples (jobs_of gaps.now) (least_gap (jobs_of gaps.now) (gap_of gaps.now)) e }
        ensures lawful { Lawful (jobs_of gaps.now) (gap_of gaps.now) (multiples result.jobs result.step) }
        ensures rule { LeastGapRule (jobs_of gaps.now) (gap_of gaps.now) (multiples result.jobs result.step) }
    {
        Multiples {
            jobs: gaps.jobs(),
            step: least_of_all(gaps),
        }
    }
}
