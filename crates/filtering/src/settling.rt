// Settling: rounds until one changes no window, or is overloaded.
ghost use Rattle.std.specs.Prelude.{◌≡◌, ℕ};
ghost use Rattle.changeover.specs.Rows.{Lawful};
ghost use Rattle.rules.specs.Settling.{unchanged, settled};
ghost use Rattle.face.specs.Shown.{shown};
ghost use Rattle.filtering.specs.Ends.{same_at, Held, Says};

use crate::outcome::Outcome;
use crate::round::round;
use changeover::Bound;
use face::Face;
use rules::Window;

// The window of a job; 0 to 0 for what is no job.
fn window_of(face: &Face, j: usize) -> Window
    ensures { result ≡ record { early = (shown face.now).early j; late = (shown face.now).late j } }
{
    Window {
        early: face.early(j),
        late: face.late(j),
    }
}

// The windows of a face, by card; 0 to 0 past the last job.
fn windows(face: &Face) -> [Window; 32]
    ensures { Held (shown face.now) result }
{
    let mut held = [Window { early: 0, late: 0 }; 32];
    for (j, window) in held[..face.jobs()].iter_mut().enumerate() {
        *window = window_of(face, j);
    }
    held
}

// Whether a job has the same window in both.
fn has_same_window(before: &Face, after: &Face, j: usize) -> bool
    ensures { result ≡ same_at (shown before.now) (shown after.now) j }
{
    window_of(before, j) == window_of(after, j)
}

// Whether a round changed no window.
fn is_unchanged(before: &Face, after: &Face) -> bool
    ensures { result ≡ unchanged (shown before.now) (shown after.now) }
{
    (0..before.jobs()).all(|j| has_same_window(before, after, j))
}

// The numbers of a bound for the jobs and the gaps of a face.
fn numbers_for<B: Bound>(face: &Face, bound: B) -> B::Worked
    ensures numbers { (e : ℕ) → B.Worked.Numbers.at result e ≡ B.Bound.becomes bound (shown face.now).n (shown face.now).gap e }
    ensures lawful { Lawful (shown face.now).n (shown face.now).gap (B.Worked.Numbers.at result) }
{
    bound.work_out(face.gaps())
}

// Settles a face: what is held, after how many rounds, and the cause where it is overloaded.
#[tactic(auto, unfolding(rules::specs::Settling::settled))]
pub fn settle<B: Bound>(face: &Face, bound: B) -> Outcome
    ensures { Says result (settled (B.Bound.becomes bound (shown face.now).n (shown face.now).gap) (shown face.now)) }
{
    let b = numbers_for(face, bound);
    let mut current = *face;
    let mut rounds = 0;
    // Counted by hand: the rounds begun are part of the answer, however the loop ends.
    loop {
        rounds += 1;
        match round(&current, &b) {
            Err(stopped) => {
                return Outcome {
                    cause: Some(stopped.cause),
                    rounds,
                    held: windows(&stopped.held),
                };
            }
            Ok(next) => {
                if is_unchanged(&current, &next) {
                    return Outcome {
                        cause: None,
                        rounds,
                        held: windows(&current),
                    };
                }
                current = next;
            }
        }
    }
}
