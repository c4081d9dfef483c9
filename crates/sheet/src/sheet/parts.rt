// The parts of a sheet, as a page or a screen shows them.
ghost use Rattle.std.specs.Prelude.{◌≡◌, ◌-◌, slice_index};
ghost use Rattle.rules.specs.Books.{job_on, posted_on};
ghost use Rattle.rules.specs.Models.{held_on};
ghost use Rattle.chain.specs.Listed.{cards};
ghost use Rattle.sheet.specs.Shown.{book_of, shown};

use super::{NO_JOB, NO_WINDOW, Sheet};
use chain::Chain;
use rules::{Job, Status, Window};

// A card or a setup, counted from 0: where what is of it stands.
pub(super) fn from_zero(number: u16) -> usize
    ensures { result ≡ number - 1 }
{
    usize::from(number).saturating_sub(1)
}

impl Sheet {
    // How many setups there are.
    pub fn setups(&self) -> u16
        ensures { result ≡ (book_of self.now).setups }
    {
        self.setups
    }

    // The changeover at a place of rows of 16; 0 where there is no such setup.
    pub fn changeover(&self, k: usize) -> u16
        ensures { result ≡ slice_index (book_of self.now).changeovers k }
    {
        self.changeovers.get(k).copied().unwrap_or(0)
    }

    // The cards that are on the sheet, in posting order.
    pub fn chain(&self) -> &Chain
        ensures { cards result.now ≡ (book_of self.now).chain }
    {
        &self.chain
    }

    // The job on a card; zeros where the card is not on the sheet.
    pub fn job(&self, card: u16) -> Job
        ensures { result ≡ job_on (book_of self.now) card }
    {
        self.jobs.get(from_zero(card)).copied().unwrap_or(NO_JOB)
    }

    // The posted window of a card; zeros where the card is not on the sheet.
    pub fn posted(&self, card: u16) -> Window
        ensures { result ≡ posted_on (book_of self.now) card }
    {
        self.posted
            .get(from_zero(card))
            .copied()
            .unwrap_or(NO_WINDOW)
    }

    // The held window of a card; zeros where the card is not on the sheet.
    pub fn held(&self, card: u16) -> Window
        ensures { result ≡ held_on (shown self.now) card }
    {
        self.held.get(from_zero(card)).copied().unwrap_or(NO_WINDOW)
    }

    pub fn status(&self) -> Status
        ensures { result ≡ (shown self.now).status }
    {
        self.status
    }

    // The rounds that settling began; 0 where the sheet is open.
    pub fn rounds(&self) -> u32
        ensures { result ≡ (shown self.now).rounds }
    {
        self.rounds
    }
}
