// A kind of bound, or the larger of two.
ghost use Rattle.changeover.specs.Laws.{larger_lawful};
ghost use Rattle.kinds.specs.declared.chosen.Choice.TheVariants as choice;
ghost use Rattle.kinds.specs.Chosen.{kind_at, choice_at, choice_numbers};
ghost use Rattle.std.proofs.Common.{arith, rules};
ghost use Rattle.kinds.specs.declared.chosen.ChoiceNumbers.TheVariants.{One, Two};
ghost use Rattle.kinds.specs.Chosens.{numbers_bounded, numbers_past, kind_lawful};

use crate::chosen::{Choice, ChoiceNumbers};
use changeover::{Bound, Gaps, Larger, Numbers};

impl Numbers for ChoiceNumbers {
    ghost at = { choice_numbers };

    ghost first = { Prim.search rules };

    ghost bounded = { elim [
      | One b ↦ λ e. numbers_bounded b e
      | Two b ↦ λ e. omega (arith, numbers_bounded b.one e, numbers_bounded b.other e)
    ] };

    ghost past = { elim [
      | One b ↦ λ e h. numbers_past b e h
      | Two b ↦ λ e h. omega (arith, numbers_past b.one e h, numbers_past b.other e h)
    ] };

    fn number(&self, e: usize) -> u32 {
        match self {
            ChoiceNumbers::One(b) => b.number(e),
            ChoiceNumbers::Two(b) => b.number(e),
        }
    }
}

impl Bound for Choice {
    type Worked = ChoiceNumbers;

    ghost becomes = { choice_at };

    ghost keeps = { elim [
      | choice.One kind ↦ λ n gap. kind_lawful kind n gap
      | choice.Larger one other ↦ λ n gap. larger_lawful n gap (kind_at one n gap) (kind_at other n gap) (kind_lawful one n gap) (kind_lawful other n gap)
    ] };

    fn work_out(self, gaps: &Gaps) -> ChoiceNumbers {
        match self {
            Choice::One(kind) => ChoiceNumbers::One(kind.work_out(gaps)),
            Choice::Larger(one, other) => ChoiceNumbers::Two(Larger { one, other }.work_out(gaps)),
        }
    }
}
