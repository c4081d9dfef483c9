// How settling can end in an overload.
ghost use Rattle.std.specs.Prelude.{◌≡◌, ℕ, Some};
ghost use Rattle.rules.specs.Causes.{kind_number, side_number, first_job, second_job};
ghost use Rattle.rules.specs.Models.{named};
ghost use Rattle.rules.specs.Texts.{cause_text};

use std::fmt;

// Why there is no plan. Settling a face counts jobs from 0 in card order; a sheet names them by card.
#[derive(Clone, Copy)]
pub enum Overload {
    // Neither of two jobs can precede the other.
    NeitherFirst(usize, usize),
    // The jobs up to this one in late order cannot all finish by its late end.
    TooMuch(usize),
    // This job's window is shorter than its duration.
    TooShort(usize),
}

// The face on which a half round found it.
#[derive(Clone, Copy)]
pub enum Side {
    First,
    Turned,
}

#[derive(Clone, Copy)]
pub struct Cause {
    pub overload: Overload,
    pub side: Side,
}

impl Overload {
    // The same of jobs that have other names.
    pub fn renamed<F: Fn(usize) -> usize>(self, name: F) -> Overload
        requires { F.IsAlwaysCallable name }
        ensures { (card : ℕ → ℕ) → ((j k : ℕ) → F.post name j k → k ≡ card j) → result ≡ named card self }
    {
        match self {
            Overload::NeitherFirst(i, j) => Overload::NeitherFirst(name(i), name(j)),
            Overload::TooMuch(j) => Overload::TooMuch(name(j)),
            Overload::TooShort(j) => Overload::TooShort(name(j)),
        }
    }

    // 1 to 3: the numbers are given.
    pub fn kind(&self) -> u8
        ensures { result ≡ kind_number self.now }
    {
        match self {
            Overload::NeitherFirst(_, _) => 1,
            Overload::TooMuch(_) => 2,
            Overload::TooShort(_) => 3,
        }
    }

    // Its two jobs; 0 where there is no second one, as the line that settle answers has it.
    pub fn jobs(&self) -> (usize, usize)
        ensures { (result.0 ≡ first_job self.now) × (result.1 ≡ second_job self.now) }
    {
        match *self {
            Overload::NeitherFirst(i, j) => (i, j),
            Overload::TooMuch(j) | Overload::TooShort(j) => (j, 0),
        }
    }
}

impl Side {
    // 0 for the first face, 1 for the turned one: the numbers are given.
    pub fn number(&self) -> u8
        ensures { result ≡ side_number self.now }
    {
        match self {
            Side::First => 0,
            Side::Turned => 1,
        }
    }
}

// Kind, face and the two jobs.
impl fmt::Display for Cause {
    ghost output = { λ cause. Some (cause_text cause) };

    fn fmt<W: fmt::Write>(&self, f: &mut fmt::Formatter<W>) -> fmt::Result {
        let kind = self.overload.kind();
        let side = self.side.number();
        let (one, other) = self.overload.jobs();
        write!(f, "{kind} {side} {one} {other}")
    }
}
