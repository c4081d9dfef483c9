// Making a sheet, and the calls on one of its cards.
ghost use Rattle.std.specs.Prelude.{◌≡◌, true, [], ◌∷◌, is_ok, Ok};
ghost use Rattle.matrix.specs.Matrix.{matrix_answer};
ghost use Rattle.rules.specs.Models.{reopened, fresh_book, make_leaves, post_answer, narrow_answer, card_answer, look_answer};
ghost use Rattle.rules.specs.Histories.{made, posts, narrows, withdraws, step, Kept, Stays};
ghost use Rattle.sheet.specs.Shown.{book_of, shown};

use super::{NO_JOB, NO_WINDOW, Sheet};
use crate::accepted::Accepted;
use crate::rows::laid_out;
use chain::Chain;
use matrix::{MatrixRefusal, check_matrix};
use rules::{CardRefusal, Job, Status, View, Window};

// The sheet of a matrix, with no jobs.
fn fresh(setups: u16, numbers: &[u16]) -> Sheet
    requires { matrix_answer setups numbers.now ≡ Ok tt }
    ensures { shown result ≡ reopened (fresh_book setups numbers.now) }
{
    Sheet {
        setups,
        changeovers: laid_out(setups, numbers),
        chain: Chain::new(),
        jobs: [NO_JOB; 32],
        posted: [NO_WINDOW; 32],
        held: [NO_WINDOW; 32],
        status: Status::Open,
        rounds: 0,
    }
}

impl Sheet {
    // A sheet to lend to make: one setup with no changeover, and no jobs.
    pub fn blank() -> Sheet
        ensures { Kept (made 1 (0 ∷ [])) (shown result) }
    {
        fresh(1, &[0])
    }

    // Makes this sheet a new one, of a matrix and with no jobs.
    pub fn make(&mut self, setups: u16, numbers: &[u16]) -> Result<(), MatrixRefusal>
        ensures answer { result ≡ matrix_answer setups numbers.now }
        ensures after { shown self.new ≡ make_leaves setups numbers.now (shown self.old) }
        ensures kept { is_ok result ≡ true → Kept (made setups numbers.now) (shown self.new) }
    {
        check_matrix(setups, numbers)?;
        *self = fresh(setups, numbers);
        Ok(())
    }

    // Puts a job on a card, at the end of the chain.
    pub fn post(&mut self, card: u16, job: Job, window: Window) -> Result<(), CardRefusal>
        ensures answer { result ≡ post_answer (book_of self.old) card job window }
        ensures after { shown self.new ≡ step (shown self.old) (posts card job window) }
        ensures kept { Stays (shown self.old) (posts card job window) (shown self.new) }
    {
        self.may_post(card, job, window)?;
        let place = usize::from(card) - 1;
        let _ = self.chain.push(card);
        self.jobs[place] = job;
        self.posted[place] = window;
        self.accept(Accepted::Posted);
        Ok(())
    }

    // Replaces the posted window of a card by one inside it.
    pub fn narrow(&mut self, card: u16, window: Window) -> Result<(), CardRefusal>
        ensures answer { result ≡ narrow_answer (book_of self.old) card window }
        ensures after { shown self.new ≡ step (shown self.old) (narrows card window) }
        ensures kept { Stays (shown self.old) (narrows card window) (shown self.new) }
    {
        self.may_narrow(card, window)?;
        self.posted[usize::from(card) - 1] = window;
        self.accept(Accepted::Narrowed);
        Ok(())
    }

    // Takes a card off the sheet.
    pub fn withdraw(&mut self, card: u16) -> Result<(), CardRefusal>
        ensures answer { result ≡ card_answer (book_of self.old) card }
        ensures after { shown self.new ≡ step (shown self.old) (withdraws card) }
        ensures kept { Stays (shown self.old) (withdraws card) (shown self.new) }
    {
        self.has_card(card)?;
        let place = usize::from(card) - 1;
        self.chain.remove(card);
        self.jobs[place] = NO_JOB;
        self.posted[place] = NO_WINDOW;
        self.accept(Accepted::Withdrawn);
        Ok(())
    }

    // The posted and the held window of a card, and the status of the sheet.
    pub fn look(&self, card: u16) -> Result<View, CardRefusal>
        ensures { result ≡ look_answer (shown self.now) card }
    {
        self.has_card(card)?;
        let place = usize::from(card) - 1;
        Ok(View {
            posted: self.posted[place],
            held: self.held[place],
            status: self.status,
        })
    }
}
