// The questions that are asked of a changeover matrix before it is taken.
ghost use Rattle.std.specs.Prelude.{◌≡◌, ◌*◌, ◌≤◌, length, MatchResult, Err};
ghost use Rattle.matrix.specs.Matrix.{changeover, breaks, first, too_great, first_too_great, first_broken, matrix_answer, Judged, Setup, Sized};

use crate::refusals::{Entry, MatrixRefusal, Triple};

// The changeovers between so many setups, row by row.
#[derive(Clone, Copy)]
struct Rows<'a> {
    setups: u16,
    numbers: &'a [u16],
    ghost sized: { Sized setups },
    ghost complete: { length numbers.now ≡ setups * setups },
}

impl<'a> Rows<'a> {
    // The numbers as rows of so many setups, or which of the first two questions says "no".
    fn new(setups: u16, numbers: &'a [u16]) -> Result<Rows<'a>, MatrixRefusal>
        ensures { MatchResult result (λ rows. (rows.setups ≡ setups) × (rows.numbers.now ≡ numbers.now)) (λ refusal. matrix_answer setups numbers.now ≡ Err refusal) }
    {
        if setups < 1 || setups > 16 {
            return Err(MatrixRefusal::Setups(setups));
        }
        let width = usize::from(setups);
        if numbers.len() != width * width {
            return Err(MatrixRefusal::Count(numbers.len()));
        }
        Ok(Rows { setups, numbers })
    }

    // The changeover from one setup to another.
    fn between(&self, from: u16, to: u16) -> u16
        requires origin { Setup self.now.setups from }
        requires target { Setup self.now.setups to }
        ensures { result ≡ changeover self.now.setups self.now.numbers.now from to }
    {
        self.numbers[usize::from(self.setups) * usize::from(from - 1) + usize::from(to - 1)]
    }

    // The changeover from one setup to another, where it is above 10,000.
    fn entry_too_great(&self, from: u16, to: u16) -> Option<Entry>
        requires origin { Setup self.now.setups from }
        requires target { Setup self.now.setups to }
        ensures { result ≡ too_great self.now.setups self.now.numbers.now from to }
    {
        let minutes = self.between(from, to);
        (minutes > 10_000).then_some(Entry { from, to, minutes })
    }

    // The first changeover above 10,000 from one setup on.
    fn first_too_great_from(&self, from: u16) -> Option<Entry>
        requires { Setup self.now.setups from }
        ensures { result ≡ first (too_great self.now.setups self.now.numbers.now from) self.now.setups }
    {
        (1..self.setups + 1).find_map(|to| self.entry_too_great(from, to))
    }

    // The first changeover above 10,000, row by row.
    fn first_entry_too_great(&self) -> Option<Entry>
        ensures { result ≡ first_too_great self.now.setups self.now.numbers.now }
    {
        (1..self.setups + 1).find_map(|from| self.first_too_great_from(from))
    }

    // Whether going from one setup to another takes longer than by way of a third.
    fn breaks_triangle(&self, triple: Triple) -> bool
        requires origin { Setup self.now.setups triple.from }
        requires target { Setup self.now.setups triple.to }
        requires between { Setup self.now.setups triple.via }
        ensures { result ≡ breaks self.now.setups self.now.numbers.now triple }
    {
        let direct = u32::from(self.between(triple.from, triple.to));
        let there = u32::from(self.between(triple.from, triple.via));
        let onward = u32::from(self.between(triple.via, triple.to));
        direct > there + onward
    }

    // The first triple that breaks the triangle inequality, by from, then to, then via.
    // The three loops are left by one labelled break: the form is given.
    fn first_triple_broken(&self) -> Option<Triple>
        ensures { result ≡ first_broken self.now.setups self.now.numbers.now }
    {
        let past = self.setups + 1;
        'search: {
            for from in 1..past {
                for to in 1..past {
                    for via in 1..past {
                        let triple = Triple { from, to, via };
                        if self.breaks_triangle(triple) {
                            break 'search Some(triple);
                        }
                    }
                }
            }
            None
        }
    }
}

// Whether the numbers are a changeover matrix of so many setups, row by row, or the first question that says "no".
pub fn check_matrix(setups: u16, numbers: &[u16]) -> Result<(), MatrixRefusal>
    ensures answer { result ≡ matrix_answer setups numbers.now }
    ensures judged { Judged setups numbers.now result }
{
    let rows = Rows::new(setups, numbers)?;
    if let Some(entry) = rows.first_entry_too_great() {
        return Err(MatrixRefusal::TooGreat(entry));
    }
    if let Some(triple) = rows.first_triple_broken() {
        return Err(MatrixRefusal::Triangle(triple));
    }
    Ok(())
}
