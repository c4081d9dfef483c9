// What the bytes of a page stand for.
ghost use Rattle.std.specs.Prelude.{◌≡◌, not, ◌&&◌, [], ◌==◌, slice_index, Ok};
ghost use Rattle.rules.specs.Models.{reopened};
ghost use Rattle.rules.specs.Pages.{belongs, first_stray, page_book, jobs_pass};
ghost use Rattle.chain.specs.Listed.{cards};
ghost use Rattle.sheet.specs.Shown.{shown};
ghost use Rattle.archive.specs.Answers.{stray_answer};
ghost use Rattle.archive.specs.Bytes.{bytes_of};

use crate::page::Page;
use chain::Chain;
use rules::PageFault;
use sheet::Sheet;

// A page with the setups of its matrix and with its chain, whose jobs may stand on a sheet of so many setups.
#[derive(Clone, Copy)]
pub(crate) struct Layout<'a> {
    pub(crate) page: Page<'a>,
    pub(crate) setups: u16,
    pub(crate) chain: Chain,
    ghost jobs: { jobs_pass (bytes_of page) setups (cards chain) ≡ Ok tt },
}

impl Layout<'_> {
    // Whether a byte belongs to something: to the head, to a changeover between two of the setups, or to the record of a card of
    // the chain.
    fn belongs(&self, byte: usize) -> bool
        ensures { result ≡ belongs self.now.setups (cards self.now.chain) byte }
    {
        if byte < 12 {
            return true;
        }
        if byte < 524 {
            let k = (byte - 12) / 2;
            let width = usize::from(self.setups);
            return k / 16 < width && k % 16 < width;
        }
        let card = (byte - 524) / 24 + 1;
        self.chain
            .cards()
            .iter()
            .any(|&other| card == usize::from(other))
    }

    // Whether a byte is not zero and belongs to nothing.
    fn is_stray(&self, byte: usize) -> bool
        ensures { result ≡ (not (belongs self.now.setups (cards self.now.chain) byte) && not (slice_index (bytes_of self.now.page) byte == 0)) }
    {
        self.page.byte(byte) != 0 && !self.belongs(byte)
    }

    // The first such byte.
    fn first_stray(&self) -> Option<usize>
        ensures { result ≡ first_stray (bytes_of self.now.page) self.now.setups (cards self.now.chain) }
    {
        (0..1292).find(|&byte| self.is_stray(byte))
    }

    // Whether every byte that belongs to nothing is zero.
    pub(crate) fn check_strays(&self) -> Result<(), PageFault>
        ensures { result ≡ stray_answer (first_stray (bytes_of self.now.page) self.now.setups (cards self.now.chain)) }
    {
        self.first_stray()
            .map_or(Ok(()), |byte| Err(PageFault::Stray(byte)))
    }

    // Posts the jobs of the chain on a sheet with the page's matrix and no jobs.
    pub(crate) fn post_all(&self, sheet: &mut Sheet)
        requires { shown sheet.old ≡ reopened (page_book (bytes_of self.now.page) self.now.setups []) }
        ensures { shown sheet.new ≡ reopened (page_book (bytes_of self.now.page) self.now.setups (cards self.now.chain)) }
    {
        for &card in self.chain.cards() {
            let found = self.page.record(card);
            let _ = sheet.post(card, found.job, found.posted);
        }
    }
}
