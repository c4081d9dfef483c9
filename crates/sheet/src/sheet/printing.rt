// A sheet in words, as the planner and the page reader print it.
ghost use Rattle.std.specs.Prelude.{Some};
ghost use Rattle.sheet.specs.Shown.{shown};
ghost use Rattle.sheet.specs.Texts.{sheet_text};

use super::Sheet;
use rules::Job;
use std::fmt;

// Status and rounds, then a line for each job in chain order: card, setup, duration, posted ends, held ends.
impl fmt::Display for Sheet {
    ghost output = { λ sheet. Some (sheet_text (shown sheet)) };

    fn fmt<W: fmt::Write>(&self, f: &mut fmt::Formatter<W>) -> fmt::Result {
        let status = self.status;
        let rounds = self.rounds;
        write!(f, "{status} {rounds}")?;
        for &card in self.chain.cards() {
            let Job { setup, duration } = self.job(card);
            let posted = self.posted(card);
            let held = self.held(card);
            write!(f, "\n{card} {setup} {duration} {posted} {held}")?;
        }
        Ok(())
    }
}
