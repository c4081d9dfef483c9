// Whether a page says what settling gives.
ghost use Rattle.std.specs.Prelude.{◌≡◌, ◌&&◌, ◌==◌};
ghost use Rattle.rules.specs.Models.{held_on};
ghost use Rattle.rules.specs.Pages.{held_in, same_held, agrees};
ghost use Rattle.sheet.specs.Shown.{book_of, shown};
ghost use Rattle.archive.specs.Bytes.{bytes_of};

use super::Page;
use crate::bytes::{read16, read32};
use sheet::Sheet;

impl Page<'_> {
    // Whether a card holds on the page what it holds on a sheet.
    fn holds_same(&self, sheet: &Sheet, card: u16) -> bool
        ensures { result ≡ ((held_in (bytes_of self.now) card).early == (held_on (shown sheet.now) card).early && (held_in (bytes_of self.now) card).late == (held_on (shown sheet.now) card).late) }
    {
        self.record(card).held == sheet.held(card)
    }

    // Whether each card of the sheet's chain does.
    fn all_hold_same(&self, sheet: &Sheet) -> bool
        ensures { result ≡ same_held (bytes_of self.now) (shown sheet.now) (book_of sheet.now).chain }
    {
        sheet
            .chain()
            .cards()
            .iter()
            .all(|&card| self.holds_same(sheet, card))
    }

    // Whether status, rounds and held windows of the page are the sheet's.
    pub(crate) fn agrees(&self, sheet: &Sheet) -> bool
        ensures { result ≡ agrees (bytes_of self.now) (shown sheet.now) }
    {
        let same_status = read16(self.bytes, 6) == u16::from(sheet.status());
        let same_rounds = read32(self.bytes, 8) == sheet.rounds();
        let same_held = self.all_hold_same(sheet);
        same_status && same_rounds && same_held
    }
}
