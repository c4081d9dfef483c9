// Why numbers are no changeover matrix.
ghost use Rattle.std.specs.Prelude.{◌≡◌, Some};
ghost use Rattle.matrix.specs.Matrix.{matrix_number};
ghost use Rattle.matrix.specs.Words.{entry_text, triple_text, refusal_text};

use std::fmt;

// The changeover from one setup to another.
#[derive(Clone, Copy)]
pub struct Entry {
    pub from: u16,
    pub to: u16,
    pub minutes: u16,
}

// Going from one setup to another takes longer than by way of a third.
#[derive(Clone, Copy)]
pub struct Triple {
    pub from: u16,
    pub to: u16,
    pub via: u16,
}

// Why numbers are no changeover matrix: the first question that has the answer "no".
#[derive(Clone, Copy)]
pub enum MatrixRefusal {
    // The setups are not 1 to 16.
    Setups(u16),
    // So many numbers are not one for each two setups.
    Count(usize),
    // The first changeover, row by row, that is above 10,000.
    TooGreat(Entry),
    // The first triple, by from, then to, then via, that breaks the triangle inequality.
    Triangle(Triple),
}

impl MatrixRefusal {
    // The number of the question that had the answer "no": the numbers are given.
    pub fn number(&self) -> u8
        ensures { result ≡ matrix_number self.now }
    {
        match self {
            MatrixRefusal::Setups(_) => 1,
            MatrixRefusal::Count(_) => 2,
            MatrixRefusal::TooGreat(_) => 3,
            MatrixRefusal::Triangle(_) => 4,
        }
    }
}

// A changeover that is refused: its values, and why.
impl fmt::Display for Entry {
    ghost output = { λ entry. Some (entry_text entry) };

    fn fmt<W: fmt::Write>(&self, f: &mut fmt::Formatter<W>) -> fmt::Result {
        let Entry { from, to, minutes } = *self;
        write!(
            f,
            "{from} {to} {minutes} from setup {from} to setup {to} takes more than 10000 minutes"
        )
    }
}

// A triple that is refused: its values, and why.
impl fmt::Display for Triple {
    ghost output = { λ triple. Some (triple_text triple) };

    fn fmt<W: fmt::Write>(&self, f: &mut fmt::Formatter<W>) -> fmt::Result {
        let Triple { from, to, via } = *self;
        write!(
            f,
            "{from} {to} {via} from setup {from} to setup {to} takes longer than by way of setup {via}"
        )
    }
}

// The number of the question, the values that it refuses, and the reason.
impl fmt::Display for MatrixRefusal {
    ghost output = { λ refusal. Some (refusal_text refusal) };

    fn fmt<W: fmt::Write>(&self, f: &mut fmt::Formatter<W>) -> fmt::Result {
        let number = self.number();
        match self {
            MatrixRefusal::Setups(setups) => {
                write!(f, "{number} {setups} a matrix has 1 to 16 setups")
            }
            MatrixRefusal::Count(count) => write!(
                f,
                "{number} {count} a matrix has one number for each setup and each setup after it"
            ),
            MatrixRefusal::TooGreat(entry) => write!(f, "{number} {entry}"),
            MatrixRefusal::Triangle(triple) => write!(f, "{number} {triple}"),
        }
    }
}
