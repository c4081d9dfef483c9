// What a command does to the sheet, and what is answered.
ghost use Rattle.std.specs.Prelude.{◌≡◌, Some};
ghost use Rattle.planner.specs.Texts.{of_matrix, of_card, refused_text};

use crate::command::Command;
use matrix::MatrixRefusal;
use rules::{CardRefusal, Settlement, View};
use sheet::Sheet;
use std::fmt;

#[derive(Clone, Copy)]
pub enum Answer {
    Made(u16),
    Bounds,
    Posted(u16),
    Narrowed(u16),
    Withdrawn(u16),
    Looked(View),
    Settled(Settlement),
    Sheet,
}

// Why a command is refused.
#[derive(Clone, Copy)]
pub enum Refused {
    Matrix(MatrixRefusal),
    Card(CardRefusal),
}

impl From<MatrixRefusal> for Refused {
    ghost from_gives = { λ e r. r ≡ of_matrix e };

    fn from(refusal: MatrixRefusal) -> Refused {
        Refused::Matrix(refusal)
    }
}

impl From<CardRefusal> for Refused {
    ghost from_gives = { λ e r. r ≡ of_card e };

    fn from(refusal: CardRefusal) -> Refused {
        Refused::Card(refusal)
    }
}

// The number of the question, its values, and the reason.
impl fmt::Display for Refused {
    ghost output = { λ refused. Some (refused_text refused) };

    fn fmt<W: fmt::Write>(&self, f: &mut fmt::Formatter<W>) -> fmt::Result {
        match self {
            Refused::Matrix(refusal) => write!(f, "{refusal}"),
            Refused::Card(refusal) => write!(f, "{refusal}"),
        }
    }
}

// Plays a command on the sheet.
pub fn play(sheet: &mut Sheet, command: &Command) -> Result<Answer, Refused> {
    match command {
        Command::Make(setups, numbers) => {
            sheet.make(*setups, numbers.as_slice())?;
            Ok(Answer::Made(*setups))
        }
        Command::Bounds => Ok(Answer::Bounds),
        Command::Post(card, job, window) => {
            sheet.post(*card, *job, *window)?;
            Ok(Answer::Posted(*card))
        }
        Command::Narrow(card, window) => {
            sheet.narrow(*card, *window)?;
            Ok(Answer::Narrowed(*card))
        }
        Command::Withdraw(card) => {
            sheet.withdraw(*card)?;
            Ok(Answer::Withdrawn(*card))
        }
        Command::Look(card) => Ok(Answer::Looked(sheet.look(*card)?)),
        Command::Settle(choice) => Ok(Answer::Settled(sheet.settle(*choice))),
        Command::Show => Ok(Answer::Sheet),
    }
}
