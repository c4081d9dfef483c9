// The chain of cards on a page.
ghost use Rattle.std.specs.Prelude.{◌≡◌};
ghost use Rattle.rules.specs.Pages.{links, chain_answer};
ghost use Rattle.archive.specs.Bytes.{bytes_of};
ghost use Rattle.archive.specs.Chains.{cards_of};

use super::Page;
use crate::bytes::read16;
use chain::Chain;
use rules::ChainFault;

impl Page<'_> {
    // The cards from the first link on: each link is 0 or a card, and no card is met twice.
    fn walk(&self) -> Result<Chain, ChainFault>
        ensures { cards_of result ≡ links (bytes_of self.now) }
    {
        let mut chain = Chain::new();
        let mut card = 0;
        let mut link = read16(self.bytes, 4);
        // A loop by hand: each link is known once the record before it is read.
        while link != 0 {
            if !chain.push(link) {
                return Err(ChainFault::Link(card, link));
            }
            card = link;
            link = self.record(link).next;
        }
        Ok(chain)
    }

    // The chain of a page with so many setups, with each job checked in its order.
    pub(crate) fn read_chain(&self, setups: u16) -> Result<Chain, ChainFault>
        ensures { cards_of result ≡ chain_answer (bytes_of self.now) setups }
    {
        let chain = self.walk()?;
        for &card in chain.cards() {
            self.check_record(setups, card)?;
        }
        Ok(chain)
    }
}
