// Why a call on a sheet is refused: the first question that has the answer "no". The numbers of the questions are given.
ghost use Rattle.std.specs.Prelude.{◌≡◌, Some};
ghost use Rattle.rules.specs.Refusals.{job_number, card_number, on_card};
ghost use Rattle.rules.specs.Texts.{job_text, card_text};

use crate::sheet::Window;
use std::fmt;

// What is wrong with a job.
#[derive(Clone, Copy)]
pub enum JobRefusal {
    // The sheet has no such setup.
    Setup(u16),
    // The duration is not 1 to 100,000 minutes.
    Duration(u32),
    // The late end is past minute 1,000,000.
    LateEnd(u32),
    // From the early to the late end there is no room for the duration.
    Room(Window),
}

// Why a call that names a card is refused.
#[derive(Clone, Copy)]
pub enum CardRefusal {
    // The card is not 1 to 32.
    Card(u16),
    // The card is on the sheet already.
    Taken(u16),
    // The card is not on the sheet.
    Absent(u16),
    // The new window is not inside the posted one.
    Outside(Window),
    // Something is wrong with the job.
    Job(JobRefusal),
}

impl JobRefusal {
    // The number of the question that had the answer "no".
    pub fn number(&self) -> u8
        ensures { result ≡ job_number self.now }
    {
        match self {
            JobRefusal::Setup(_) => 8,
            JobRefusal::Duration(_) => 9,
            JobRefusal::LateEnd(_) => 10,
            JobRefusal::Room(_) => 11,
        }
    }
}

impl CardRefusal {
    // The number of the question that had the answer "no".
    pub fn number(&self) -> u8
        ensures { result ≡ card_number self.now }
    {
        match self {
            CardRefusal::Card(_) => 5,
            CardRefusal::Taken(_) => 6,
            CardRefusal::Absent(_) => 7,
            CardRefusal::Outside(_) => 12,
            CardRefusal::Job(refusal) => refusal.number(),
        }
    }
}

impl From<JobRefusal> for CardRefusal {
    ghost from_gives = { λ e r. r ≡ on_card e };

    fn from(refusal: JobRefusal) -> CardRefusal {
        CardRefusal::Job(refusal)
    }
}

// The number of the question, its values, and the reason.
impl fmt::Display for JobRefusal {
    ghost output = { λ refusal. Some (job_text refusal) };

    fn fmt<W: fmt::Write>(&self, f: &mut fmt::Formatter<W>) -> fmt::Result {
        let number = self.number();
        match self {
            JobRefusal::Setup(setup) => write!(
                f,
                "{number} {setup} the matrix has no setup {setup}"
            ),
            JobRefusal::Duration(minutes) => {
                write!(f, "{number} {minutes} a job takes 1 to 100000 minutes")
            }
            JobRefusal::LateEnd(late) => write!(
                f,
                "{number} {late} a window ends by minute 1000000"
            ),
            JobRefusal::Room(Window { early, late }) => write!(
                f,
                "{number} {early} {late} from {early} to {late} there is no room for the job"
            ),
        }
    }
}

// The number of the question, its values, and the reason.
impl fmt::Display for CardRefusal {
    ghost output = { λ refusal. Some (card_text refusal) };

    fn fmt<W: fmt::Write>(&self, f: &mut fmt::Formatter<W>) -> fmt::Result {
        let number = self.number();
        match self {
            CardRefusal::Card(card) => write!(
                f,
                "{number} {card} a card has a number from 1 to 32"
            ),
            CardRefusal::Taken(card) => {
                write!(f, "{number} {card} card {card} is on the sheet already")
            }
            CardRefusal::Absent(card) => {
                write!(f, "{number} {card} card {card} is not on the sheet")
            }
            CardRefusal::Outside(Window { early, late }) => write!(
                f,
                "{number} {early} {late} from {early} to {late} is not inside the posted window"
            ),
            CardRefusal::Job(refusal) => write!(f, "{refusal}"),
        }
    }
}
