// Pairs of jobs: those that exclude each other, and those of which one has to come first.
ghost use Rattle.std.specs.Prelude.{◌≡◌, ◌≤◌, not, ◌&&◌, ◌==◌};
ghost use Rattle.rules.specs.Rules.{can_precede, clash, clashing, pair_early};
ghost use Rattle.face.specs.Shown.{shown};
ghost use Rattle.filtering.specs.Ends.{verdict};
ghost use Rattle.filtering.specs.Pairs.{over_for, first_with};

use face::Face;
use rules::Overload;

// When job i and the gap from it to job j are over at the earliest.
fn over_for(face: &Face, i: usize, j: usize) -> u32
    ensures value { result ≡ over_for (shown face.now) i j }
    ensures small { result ≤ 1012000 }
{
    face.earliest_finish(i) + face.gap(i, j)
}

// Whether job i can precede job j: after it and the gap, j can still start.
#[tactic(auto, unfolding(rules::specs::Rules::can_precede))]
fn can_precede(face: &Face, i: usize, j: usize) -> bool
    ensures { result ≡ can_precede (shown face.now) i j }
{
    over_for(face, i, j) <= face.latest_start(j)
}

// Whether neither of two jobs can precede the other, and i has the lower card.
#[tactic(auto, unfolding(rules::specs::Rules::clash))]
fn is_clash(face: &Face, i: usize, j: usize) -> bool
    ensures { result ≡ clash (shown face.now) i j }
{
    i < j && !can_precede(face, i, j) && !can_precede(face, j, i)
}

// The first pair of job i and a job of a higher card that clash.
fn first_with(face: &Face, i: usize) -> Option<Overload>
    ensures { result ≡ first_with (shown face.now) i }
{
    (0..face.jobs())
        .find(|&j| is_clash(face, i, j))
        .map(|j| Overload::NeitherFirst(i, j))
}

// Refuses the lowest pair of jobs that clash.
pub(crate) fn check_pairs(face: &Face) -> Result<(), Overload>
    ensures { result ≡ verdict (clashing (shown face.now)) }
{
    (0..face.jobs())
        .find_map(|i| first_with(face, i))
        .map_or(Ok(()), Err)
}

// Whether job j has to come before job i, since i cannot precede it.
fn has_to_precede(face: &Face, j: usize, i: usize) -> bool
    ensures { result ≡ (not (j == i) && not (can_precede (shown face.now) i j)) }
{
    j != i && !can_precede(face, i, j)
}

// The early end that the pairs of job i leave to it.
pub(crate) fn pair_early(face: &Face, i: usize) -> u32
    ensures { result ≡ pair_early (shown face.now) i }
{
    (0..face.jobs())
        .filter(|&j| has_to_precede(face, j, i))
        .map(|j| over_for(face, j, i))
        .fold(0, u32::max)
}
