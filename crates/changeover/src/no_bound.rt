// No bound at all: every row of jobs takes 0 minutes or more.
ghost use Rattle.changeover.specs.Kinds.{zeros};
ghost use Rattle.std.proofs.Common.{rules};

use crate::bound::{Bound, Numbers};
use crate::gaps::Gaps;

#[derive(Clone, Copy)]
pub struct NoBound;

// The numbers 0, 0, ..
#[derive(Clone, Copy)]
pub struct Zeros;

impl Numbers for Zeros {
    ghost at = { λ _. zeros };

    ghost first = { Prim.search rules };

    ghost bounded = { Prim.search rules };

    ghost past = { Prim.search rules };

    fn number(&self, _e: usize) -> u32 {
        0
    }
}

impl Bound for NoBound {
    type Worked = Zeros;

    ghost becomes = { λ _ _ _. zeros };

    ghost keeps = { Prim.search rules };

    fn work_out(self, _gaps: &Gaps) -> Zeros {
        Zeros
    }
}
