// The kinds of bound that a program can name.
ghost use Rattle.kinds.specs.Names.{Names};

use changeover::{Listed, Multiples, Zeros};
use std::str::FromStr;

// A bound that is chosen as the program runs.
#[derive(Clone, Copy)]
pub enum Kind {
    NoBound,
    LeastGap,
    ShortestWalk,
}

// What it becomes.
#[derive(Clone, Copy)]
pub enum KindNumbers {
    None(Zeros),
    Least(Multiples),
    Walk(Listed),
}

// A word that names no kind of bound.
#[derive(Clone, Copy)]
pub struct UnknownKind;

impl FromStr for Kind {
    type Err = UnknownKind;

    ghost from_str_gives = { Names };

    fn from_str(word: &str) -> Result<Kind, UnknownKind> {
        match word {
            "none" => Ok(Kind::NoBound),
            "least" => Ok(Kind::LeastGap),
            "walk" => Ok(Kind::ShortestWalk),
            _ => Err(UnknownKind),
        }
    }
}
