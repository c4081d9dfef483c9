// The larger of two bounds of any kinds, place by place.
ghost use Rattle.changeover.specs.Kinds.{larger};
ghost use Rattle.std.proofs.Common.{rules};
ghost use Rattle.changeover.specs.Laws.{larger_lawful};

use crate::bound::{Bound, Numbers};
use crate::gaps::Gaps;

// Two bounds, or two worked-out bounds: it is whichever they are.
#[derive(Drop)]
pub struct Larger<A, B> {
    pub one: A,
    pub other: B,
}

impl<A: Numbers, B: Numbers> Numbers for Larger<A, B> {
    ghost at = { λ b. larger (A.Numbers.at b.one) (B.Numbers.at b.other) };

    ghost first = { Prim.search rules };

    ghost bounded = { Prim.search rules };

    ghost past = { Prim.search rules };

    fn number(&self, e: usize) -> u32 {
        self.one.number(e).max(self.other.number(e))
    }
}

impl<A: Bound, B: Bound> Bound for Larger<A, B> {
    type Worked = Larger<A::Worked, B::Worked>;

    ghost becomes = { λ b n gap. larger (A.Bound.becomes b.one n gap) (B.Bound.becomes b.other n gap) };

    ghost keeps = { λ b n gap. larger_lawful n gap (A.Bound.becomes b.one n gap) (B.Bound.becomes b.other n gap) (A.Bound.keeps b.one n gap) (B.Bound.keeps b.other n gap) };

    fn work_out(self, gaps: &Gaps) -> Larger<A::Worked, B::Worked> {
        let Larger { one, other } = self;
        Larger {
            one: one.work_out(gaps),
            other: other.work_out(gaps),
        }
    }
}
