// What stands on a sheet, and what is told of it.
ghost use Rattle.std.specs.Prelude.{◌≡◌, Some};
ghost use Rattle.rules.specs.Models.{status_of};
ghost use Rattle.rules.specs.Pages.{status_number, Numbered};
ghost use Rattle.rules.specs.Texts.{status_text, window_text, view_text, settlement_text};

use crate::outcome::Cause;
use std::fmt;

// From when to when a job may run.
#[derive(Clone, Copy, PartialEq, Eq)]
pub struct Window {
    pub early: u32,
    pub late: u32,
}

// What is done on a card: in which setup, and for how many minutes.
#[derive(Clone, Copy)]
pub struct Job {
    pub setup: u16,
    pub duration: u32,
}

// What is known of the windows that a sheet holds.
#[derive(Clone, Copy, PartialEq, Eq)]
pub enum Status {
    // As posted.
    Open,
    // Settled: no rule cuts them further.
    Settled,
    // There is no plan.
    Overloaded,
}

// What is known of a job: its posted and its held window, and the status of its sheet.
#[derive(Clone, Copy)]
pub struct View {
    pub posted: Window,
    pub held: Window,
    pub status: Status,
}

// How settling a sheet ended: the rounds begun, and the cause where it is overloaded, which names its jobs by card.
#[derive(Clone, Copy)]
pub struct Settlement {
    pub rounds: u32,
    pub cause: Option<Cause>,
}

impl Settlement {
    // Overloaded where there is a cause, or else settled.
    pub fn status(&self) -> Status
        ensures { result ≡ status_of self.now.cause }
    {
        match self.cause {
            Some(_) => Status::Overloaded,
            None => Status::Settled,
        }
    }
}

// A number that no status has.
#[derive(Clone, Copy)]
pub struct UnknownStatus(pub u16);

impl TryFrom<u16> for Status {
    type Error = UnknownStatus;

    ghost try_from_gives = { Numbered };

    fn try_from(number: u16) -> Result<Status, UnknownStatus> {
        match number {
            0 => Ok(Status::Open),
            1 => Ok(Status::Settled),
            2 => Ok(Status::Overloaded),
            _ => Err(UnknownStatus(number)),
        }
    }
}

impl From<Status> for u16 {
    ghost from_gives = { λ status number. number ≡ status_number status };

    fn from(status: Status) -> u16 {
        match status {
            Status::Open => 0,
            Status::Settled => 1,
            Status::Overloaded => 2,
        }
    }
}

impl Status {
    // Its name.
    pub fn name(&self) -> &'static str
        ensures { result.now ≡ status_text self.now }
    {
        match self {
            Status::Open => "open",
            Status::Settled => "settled",
            Status::Overloaded => "overloaded",
        }
    }
}

// Its name.
impl fmt::Display for Status {
    ghost output = { λ status. Some (status_text status) };

    fn fmt<W: fmt::Write>(&self, f: &mut fmt::Formatter<W>) -> fmt::Result {
        f.write_str(self.name())
    }
}

// The early and the late end.
impl fmt::Display for Window {
    ghost output = { λ window. Some (window_text window) };

    fn fmt<W: fmt::Write>(&self, f: &mut fmt::Formatter<W>) -> fmt::Result {
        let Window { early, late } = self;
        write!(f, "{early} {late}")
    }
}

// The posted window, the held one, and the status of the sheet.
impl fmt::Display for View {
    ghost output = { λ view. Some (view_text view) };

    fn fmt<W: fmt::Write>(&self, f: &mut fmt::Formatter<W>) -> fmt::Result {
        let View {
            posted,
            held,
            status,
        } = self;
        write!(f, "{posted} {held} {status}")
    }
}

// Settled or overloaded, after how many rounds; and the cause, where there is one.
impl fmt::Display for Settlement {
    ghost output = { λ settlement. Some (settlement_text settlement) };

    fn fmt<W: fmt::Write>(&self, f: &mut fmt::Formatter<W>) -> fmt::Result {
        let rounds = self.rounds;
        match &self.cause {
            None => write!(f, "settled {rounds}"),
            Some(cause) => write!(f, "overloaded {rounds} {cause}"),
        }
    }
}
