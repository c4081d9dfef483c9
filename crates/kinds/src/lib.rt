// Bounds that are chosen as a program runs.
#![tactic(auto)]

ghost use Rattle.kinds.specs.Chosen.{kind_at, numbers_at};
ghost use Rattle.kinds.specs.Chosens.{numbers_bounded, numbers_past, kind_lawful};
ghost use Rattle.std.proofs.Common.{rules};

use changeover::{Bound, Gaps, LeastGap, NoBound, Numbers, ShortestWalk};

mod choice;
mod chosen;
mod kind;
mod words;

pub use chosen::{Choice, ChoiceNumbers};
pub use kind::{Kind, KindNumbers, UnknownKind};
pub use words::{Unnamed, next_choice, next_kind};

impl Numbers for KindNumbers {
    ghost at = { numbers_at };

    ghost first = { Prim.search rules };

    ghost bounded = { numbers_bounded };

    ghost past = { numbers_past };

    fn number(&self, e: usize) -> u32 {
        match self {
            KindNumbers::None(b) => b.number(e),
            KindNumbers::Least(b) => b.number(e),
            KindNumbers::Walk(b) => b.number(e),
        }
    }
}

impl Bound for Kind {
    type Worked = KindNumbers;

    ghost becomes = { kind_at };

    ghost keeps = { kind_lawful };

    fn work_out(self, gaps: &Gaps) -> KindNumbers {
        match self {
            Kind::NoBound => KindNumbers::None(NoBound.work_out(gaps)),
            Kind::LeastGap => KindNumbers::Least(LeastGap.work_out(gaps)),
            Kind::ShortestWalk => KindNumbers::Walk(ShortestWalk.work_out(gaps)),
        }
    }
}
