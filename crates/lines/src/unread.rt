// Why a line cannot be read.
ghost use Rattle.std.specs.Prelude.{◌≡◌, Some};
ghost use Rattle.lines.specs.declared.unread.Unread.TheVariants as unread;
ghost use Rattle.lines.specs.Texts.{unread_text, of_unnamed};

use kinds::Unnamed;
use std::alloc::{AllocError, AllocFailed};
use std::fmt;

#[derive(Clone, Copy)]
pub enum Unread<'a> {
    NoSuchCommand(&'a str),
    SetupsMissing,
    NumberMissing,
    BoundMissing,
    FileMissing,
    NoSuchBound(&'a str),
    // No whole number of 16 bits.
    NoShort(&'a str),
    // No whole number of 32 bits.
    NoLong(&'a str),
    TooMany(&'a str),
    Memory,
}

impl From<AllocError> for Unread<'_> {
    ghost from_gives = { λ _ r. r ≡ unread.Memory };

    fn from(_e: AllocError) -> Self {
        Unread::Memory
    }
}

impl<T: Drop> From<AllocFailed<T>> for Unread<'_> {
    ghost from_gives = { λ _ r. r ≡ unread.Memory };

    fn from(_e: AllocFailed<T>) -> Self {
        Unread::Memory
    }
}

impl<'a> From<Unnamed<'a>> for Unread<'a> {
    ghost from_gives = { λ e r. r ≡ of_unnamed e };

    fn from(unnamed: Unnamed<'a>) -> Self {
        match unnamed {
            Unnamed::Missing => Unread::BoundMissing,
            Unnamed::Unknown(word) => Unread::NoSuchBound(word),
        }
    }
}

// The reason, in words.
impl fmt::Display for Unread<'_> {
    ghost output = { λ fault. Some (unread_text fault) };

    fn fmt<W: fmt::Write>(&self, f: &mut fmt::Formatter<W>) -> fmt::Result {
        match self {
            Unread::NoSuchCommand(name) => write!(f, "there is no command {name}"),
            Unread::SetupsMissing => f.write_str("make needs the number of setups"),
            Unread::NumberMissing => f.write_str("a number is missing"),
            Unread::BoundMissing => f.write_str("a kind of bound is missing"),
            Unread::FileMissing => f.write_str("a file is missing"),
            Unread::NoSuchBound(word) => write!(f, "there is no bound {word}"),
            Unread::NoShort(word) => write!(f, "{word} is no whole number from 0 to 65535"),
            Unread::NoLong(word) => write!(f, "{word} is no whole number from 0 to 4294967295"),
            Unread::TooMany(word) => write!(f, "nothing may follow, but {word} does"),
            Unread::Memory => f.write_str("there is no memory left for it"),
        }
    }
}
