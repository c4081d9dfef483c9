// Settling a sheet.
ghost use Rattle.std.specs.Prelude.{◌≡◌, slice_index};
ghost use Rattle.rules.specs.Models.{named_cause, settle_answer};
ghost use Rattle.rules.specs.Histories.{settles, step, Stays};
ghost use Rattle.chain.specs.Listed.{cards};
ghost use Rattle.sheet.specs.Shown.{book_of, shown};

use super::Sheet;
use crate::accepted::Accepted;
use crate::sheet::in_order::by_card;
use chain::Chain;
use changeover::Bound;
use filtering::settle;
use rules::{Cause, Settlement};

// A cause with its jobs by card, in the place of their number in an order of cards.
fn named_cause(order: &Chain, cause: Option<Cause>) -> Option<Cause>
    ensures { result ≡ named_cause (λ j. slice_index (cards order.now) j) cause }
{
    let Cause { overload, side } = cause?;
    let overload = overload.renamed(|j| usize::from(order.card_at(j)));
    Some(Cause { overload, side })
}

impl Sheet {
    // Settles the posted windows with a bound of any kind: the windows held, or that there is no plan.
    pub fn settle<B: Bound>(&mut self, bound: B) -> Settlement
        ensures answer { result ≡ settle_answer (B.Bound.becomes bound) (book_of self.old) }
        ensures after { shown self.new ≡ step (shown self.old) (settles (B.Bound.becomes bound)) }
        ensures kept { Stays (shown self.old) (settles (B.Bound.becomes bound)) (shown self.new) }
    {
        let order = self.chain.rising();
        let outcome = settle(&self.face(&order), bound);
        let settlement = Settlement {
            rounds: outcome.rounds,
            cause: named_cause(&order, outcome.cause),
        };
        self.accept(Accepted::Settled {
            status: settlement.status(),
            rounds: settlement.rounds,
            held: by_card(&order, &outcome.held),
        });
        settlement
    }
}
