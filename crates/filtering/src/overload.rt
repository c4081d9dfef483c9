// Rule 2: more work up to a job's late end than fits.
ghost use Rattle.std.specs.Prelude.{◌≡◌, None, Some, MatchResult};
ghost use Rattle.rules.specs.Rules.{overloading};
ghost use Rattle.face.specs.Readings.{bound_of, read};

use crate::sets::is_above;
use changeover::Numbers;
use face::{Reading, WhiteTree};
use rules::Overload;

// A reading on which every job and all before it in late order can finish by its late end.
#[derive(Drop)]
pub(crate) struct Calm<'a, W: Numbers> {
    pub(crate) reading: &'a Reading<'a, W>,
    ghost calm: { overloading (read reading.now) (W.Numbers.at (bound_of reading.now)) ≡ None },
}

// The first job in late order by whose late end it and all before it cannot finish, if there is one.
// A loop, not a search: each test reads the tree that the jobs before it are in.
fn first_overload<W: Numbers>(reading: &Reading<'_, W>) -> Option<Overload>
    ensures { result ≡ overloading (read reading.now) (W.Numbers.at (bound_of reading.now)) }
{
    let mut tree = WhiteTree::new();
    for t in 0..reading.face().jobs() {
        let j = reading.late_job(t);
        tree.enter(reading, j);
        let late = reading.face().late(j);
        if is_above(tree.finish(), late) {
            return Some(Overload::TooMuch(j));
        }
    }
    None
}

// Refuses the first job in late order by whose late end it and all before it cannot finish.
pub(crate) fn check_load<'a, W: Numbers>(
    reading: &'a Reading<'a, W>,
) -> Result<Calm<'a, W>, Overload>
    ensures { MatchResult result (λ C. C.reading.now ≡ reading.now) (λ x. overloading (read reading.now) (W.Numbers.at (bound_of reading.now)) ≡ Some x) }
{
    match first_overload(reading) {
        Some(overload) => Err(overload),
        None => Ok(Calm { reading }),
    }
}
