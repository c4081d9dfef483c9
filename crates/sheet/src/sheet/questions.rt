// The questions that the calls on a card ask of a sheet.
ghost use Rattle.std.specs.Prelude.{◌≡◌};
ghost use Rattle.rules.specs.Models.{inside, post_answer, narrow_answer, card_answer};
ghost use Rattle.sheet.specs.Shown.{book_of};

use super::Sheet;
use crate::jobs::{check_card, check_job, check_room};
use rules::{CardRefusal, Job, Window};

// Whether a window lies inside another.
fn lies_inside(window: Window, outer: Window) -> bool
    ensures { result ≡ inside window outer }
{
    outer.early <= window.early && window.late <= outer.late
}

impl Sheet {
    // Whether the job may be put on the card.
    pub(super) fn may_post(&self, card: u16, job: Job, window: Window) -> Result<(), CardRefusal>
        ensures { result ≡ post_answer (book_of self.now) card job window }
    {
        check_card(card)?;
        if self.chain.has(card) {
            return Err(CardRefusal::Taken(card));
        }
        check_job(self.setups, job, window)?;
        Ok(())
    }

    // Whether the card is on the sheet.
    pub(super) fn has_card(&self, card: u16) -> Result<(), CardRefusal>
        ensures { result ≡ card_answer (book_of self.now) card }
    {
        check_card(card)?;
        if self.chain.has(card) {
            Ok(())
        } else {
            Err(CardRefusal::Absent(card))
        }
    }

    // Whether the card's window may be replaced.
    pub(super) fn may_narrow(&self, card: u16, window: Window) -> Result<(), CardRefusal>
        ensures { result ≡ narrow_answer (book_of self.now) card window }
    {
        self.has_card(card)?;
        let place = usize::from(card) - 1;
        if !lies_inside(window, self.posted[place]) {
            return Err(CardRefusal::Outside(window));
        }
        check_room(self.jobs[place].duration, window)?;
        Ok(())
    }
}
