// A round.
ghost use Rattle.std.specs.Prelude.{◌≡◌};
ghost use Rattle.rules.specs.Faces.{turned};
ghost use Rattle.rules.specs.Rules.{half_round};
ghost use Rattle.rules.specs.Settling.{round, second_half};
ghost use Rattle.face.specs.Shown.{shown};
ghost use Rattle.filtering.specs.Ends.{round_of};

use crate::half::half_round;
use crate::outcome::Stopped;
use changeover::Numbers;
use face::Face;
use rules::{Cause, Overload, Side};

// A stop at an overload that a half round on one side found, and the windows that it read.
fn stopped(overload: Overload, side: Side, face: &Face) -> Stopped
    ensures cause { result.cause ≡ record { overload = overload; side = side } }
    ensures held { shown result.held ≡ shown face.now }
{
    Stopped {
        cause: Cause { overload, side },
        held: *face,
    }
}

// The second half of a round: a half round on the turned face of what the first half left.
fn second_half<W: Numbers>(first: &Face, b: &W) -> Result<Face, Stopped>
    ensures { round_of result ≡ second_half (shown first.now) (half_round (turned (shown first.now)) (W.Numbers.at b.now)) }
{
    half_round(&first.turned(), b)
        .map(|next| next.turned())
        .map_err(|overload| stopped(overload, Side::Turned, first))
}

// A round: a half round on the first face, then one on the turned face of what that left.
#[tactic(auto, unfolding(rules::specs::Settling::round))]
pub(crate) fn round<W: Numbers>(face: &Face, b: &W) -> Result<Face, Stopped>
    ensures { round_of result ≡ round (shown face.now) (W.Numbers.at b.now) }
{
    let first = half_round(face, b).map_err(|overload| stopped(overload, Side::First, face))?;
    second_half(&first, b)
}
