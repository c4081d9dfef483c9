// Sets of jobs, and what the rules read off them.
ghost use Rattle.std.specs.Prelude.{◌≡◌, ℕ, ◌-◌, Bool, Some};
ghost use Rattle.rules.specs.Faces.{latest_start};
ghost use Rattle.rules.specs.Rules.{above, greatest, lesser, least_over, sum, up_to};
ghost use Rattle.face.specs.Shown.{shown};
ghost use Rattle.face.specs.WhiteTrees.{but};
ghost use Rattle.filtering.specs.Sets.{under, AtMost};

use face::Face;

// Whether a time is above a limit; none is above nothing.
pub(crate) fn is_above(time: Option<u32>, limit: u32) -> bool
    ensures { result ≡ above time limit }
{
    time.is_some_and(|t| t > limit)
}

// Whether a job is another than i and has to start before a limit.
pub(crate) fn is_other_under(face: &Face, i: usize, limit: u32, k: usize) -> bool
    ensures { result ≡ but i (under (shown face.now) limit) k }
{
    k != i && face.latest_start(k) < limit
}

// Whether a job is j or before it in late order.
#[tactic(auto, unfolding(rules::specs::Rules::up_to))]
pub(crate) fn is_up_to(face: &Face, j: usize, k: usize) -> bool
    ensures { result ≡ up_to (shown face.now) j k }
{
    (face.late(k), k) <= (face.late(j), j)
}

// The lesser of a number and another, if there is another.
fn lesser(other: Option<u32>, x: u32) -> Option<u32>
    ensures { result ≡ Some (lesser other x) }
{
    Some(other.map_or(x, |y| y.min(x)))
}

// The least gap from a set to job i; none where the set has no job.
fn least_gap<F: Fn(usize) -> bool>(face: &Face, set: F, i: usize) -> Option<u32>
    requires { F.IsAlwaysCallable set }
    ensures exact { (S : ℕ → Bool) → ((k : ℕ) (r : Bool) → F.post set k r → r ≡ S k) → result ≡ least_over S (λ j. (shown face.now).gap j i) (shown face.now).n }
    ensures small { AtMost 12000 result }
{
    (0..face.jobs())
        .filter(|&k| set(k))
        .map(|k| face.gap(k, i))
        .fold(None, lesser)
}

// A finish and the least gap after it from a set to job i, if there are both.
pub(crate) fn after<F: Fn(usize) -> bool>(
    face: &Face,
    finish: Option<u32>,
    set: F,
    i: usize,
) -> Option<u32>
    requires small { AtMost 1000000000 finish }
    requires callable { F.IsAlwaysCallable set }
    ensures { (S : ℕ → Bool) → ((k : ℕ) (r : Bool) → F.post set k r → r ≡ S k) → result ≡ sum finish (least_over S (λ j. (shown face.now).gap j i) (shown face.now).n) }
{
    Some(finish? + least_gap(face, set, i)?)
}

// A job's latest start less the gap to it from job i.
fn end_before(face: &Face, i: usize, k: usize) -> u32
    ensures { result ≡ latest_start (shown face.now) k - (shown face.now).gap i k }
{
    face.latest_start(k).saturating_sub(face.gap(i, k))
}

// The greatest latest start of a set, each less the gap to it from job i; 0 where the set has no job.
pub(crate) fn greatest_end<F: Fn(usize) -> bool>(face: &Face, set: F, i: usize) -> u32
    requires { F.IsAlwaysCallable set }
    ensures { (S : ℕ → Bool) → ((k : ℕ) (r : Bool) → F.post set k r → r ≡ S k) → result ≡ greatest S (λ j. latest_start (shown face.now) j - (shown face.now).gap i j) (shown face.now).n }
{
    (0..face.jobs())
        .filter(|&k| set(k))
        .map(|k| end_before(face, i, k))
        .fold(0, u32::max)
}
