// The numbers of bounds, in words.
ghost use Rattle.std.specs.Prelude.{◌≡◌, Some};
ghost use Rattle.changeover.specs.Table.{jobs_of, gap_of};
ghost use Rattle.lines.specs.Bounds.{row_text, bounds_text};

use changeover::{Bound, Gaps, Larger, LeastGap, NoBound, Numbers, ShortestWalk};
use std::fmt;

// The name of a bound and its numbers b(0), b(1), .. for so many jobs.
#[derive(Drop)]
struct Row<'a, N> {
    name: &'a str,
    numbers: N,
    jobs: usize,
}

impl<N: Numbers> fmt::Display for Row<'_, N> {
    ghost output = { λ row. Some (row_text row.name.now (N.Numbers.at row.numbers) row.jobs) };

    fn fmt<W: fmt::Write>(&self, f: &mut fmt::Formatter<W>) -> fmt::Result {
        let name = self.name;
        write!(f, "{name}")?;
        for e in 0..self.jobs {
            let number = self.numbers.number(e);
            write!(f, " {number}")?;
        }
        Ok(())
    }
}

// The line of a bound, worked out for the jobs of a table of gaps.
fn worked_out<'a, B: Bound>(name: &'a str, bound: B, gaps: &Gaps) -> Row<'a, B::Worked>
    ensures { row_text result.name.now (B.Worked.Numbers.at result.numbers) result.jobs ≡ row_text name.now (B.Bound.becomes bound (jobs_of gaps.now) (gap_of gaps.now)) (jobs_of gaps.now) }
{
    Row {
        name,
        numbers: bound.work_out(gaps),
        jobs: gaps.jobs(),
    }
}

// Every kind of bound for the jobs of a table of gaps.
#[derive(Clone, Copy)]
pub struct AllBounds<'a> {
    pub gaps: &'a Gaps,
}

// A line for each kind.
impl fmt::Display for AllBounds<'_> {
    ghost output = { λ all. Some (bounds_text (jobs_of all.gaps.now) (gap_of all.gaps.now)) };

    fn fmt<W: fmt::Write>(&self, f: &mut fmt::Formatter<W>) -> fmt::Result {
        let both = Larger {
            one: LeastGap,
            other: ShortestWalk,
        };
        let none = worked_out("none", NoBound, self.gaps);
        let least = worked_out("least", LeastGap, self.gaps);
        let walk = worked_out("walk", ShortestWalk, self.gaps);
        let larger = worked_out("larger", both, self.gaps);
        write!(f, "{none}\n{least}\n{walk}\n{larger}")
    }
}
