// What settling reads off a sheet in card order, and where what it holds is written.
ghost use Rattle.std.specs.Prelude.{◌≡◌, ℕ, ◌<◌, ◌≢◌, List, length};
ghost use Rattle.changeover.specs.Table.{jobs_of, gap_of};
ghost use Rattle.matrix.specs.Matrix.{changeover};
ghost use Rattle.rules.specs.Cards.{rising_to};
ghost use Rattle.rules.specs.Books.{rising, jobs_in};
ghost use Rattle.rules.specs.Plans.{face_of};
ghost use Rattle.chain.specs.Listed.{cards};
ghost use Rattle.face.specs.Shown.{shown as face_shown};
ghost use Rattle.sheet.specs.Read.{job_at, gap_at, gap_among, timed_at, by_card_of};
ghost use Rattle.sheet.specs.Shown.{book_of};

use super::{NO_WINDOW, Sheet};
use crate::sheet::parts::from_zero;
use chain::Chain;
use changeover::Gaps;
use face::{Face, Job as Timed};
use rules::{Job, Window};
use std::array;

impl Sheet {
    // The changeover from one setup to another; 0 where there is no such setup.
    fn between(&self, from: u16, to: u16) -> u16
        ensures { result ≡ changeover 16 (book_of self.now).changeovers from to }
    {
        self.changeover(16 * from_zero(from) + from_zero(to))
    }

    // The job on the i-th of some cards.
    fn job_in(&self, order: &Chain, i: usize) -> Job
        ensures { result ≡ job_at (book_of self.now).jobs (cards order.now) i }
    {
        self.job(order.card_at(i))
    }

    // How long the job on the i-th of some cards lasts, and its posted window.
    fn timed_in(&self, order: &Chain, i: usize) -> Timed
        ensures { result ≡ timed_at (book_of self.now).jobs (book_of self.now).posted (cards order.now) i }
    {
        let Window { early, late } = self.posted(order.card_at(i));
        let duration = self.job_in(order, i).duration;
        Timed {
            duration,
            early,
            late,
        }
    }

    // Writes the gaps from the i-th of some cards to the others.
    fn write_gaps_from(&self, gaps: &mut Gaps, order: &Chain, i: usize)
        requires many { jobs_of gaps.old ≡ length (cards order.now) }
        requires inside { i < length (cards order.now) }
        ensures jobs { jobs_of gaps.new ≡ jobs_of gaps.old }
        ensures row { (j : ℕ) → j < length (cards order.now) → gap_of gaps.new i j ≡ gap_at (book_of self.now).changeovers (book_of self.now).jobs (cards order.now) i j }
        ensures others { (a b : ℕ) → a ≢ i → gap_of gaps.new a b ≡ gap_of gaps.old a b }
    {
        let from = self.job_in(order, i).setup;
        // Over job numbers: each call takes both.
        for j in 0..order.len() {
            let to = self.job_in(order, j).setup;
            let _ = gaps.set_gap(i, j, self.between(from, to));
        }
    }

    // The gaps between the jobs on some cards.
    fn gaps_in(&self, order: &Chain) -> Gaps
        ensures jobs { jobs_of result ≡ length (cards order.now) }
        ensures gaps { (i j : ℕ) → gap_of result i j ≡ gap_among (book_of self.now).changeovers (book_of self.now).jobs (cards order.now) i j }
    {
        let Some(mut gaps) = Gaps::new(order.len()) else {
            unreachable()
        };
        // Over job numbers: each is handed on.
        for i in 0..order.len() {
            self.write_gaps_from(&mut gaps, order, i);
        }
        gaps
    }

    // The jobs of the sheet in card order, as settling reads them.
    pub(super) fn face(&self, order: &Chain) -> Face
        requires { cards order.now ≡ rising (book_of self.now) }
        ensures { face_shown result ≡ face_of (jobs_in (book_of self.now)) }
    {
        let gaps = self.gaps_in(order);
        let jobs: [Timed; 32] = array::from_fn(|i| self.timed_in(order, i));
        let Some(face) = Face::new(&jobs[..order.len()], &gaps) else {
            unreachable()
        };
        face
    }
}

// The windows of the jobs on some cards, in rising order, by card; zeros on the other cards.
pub(super) fn by_card(order: &Chain, windows: &[Window; 32]) -> [Window; 32]
    ensures { (chain : List ℕ) → cards order.now ≡ rising_to chain 32 → result ≡ by_card_of chain windows.now }
{
    let mut all = [NO_WINDOW; 32];
    for (j, &card) in order.cards().iter().enumerate() {
        all[from_zero(card)] = windows[j];
    }
    all
}
