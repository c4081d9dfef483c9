// A half round.
ghost use Rattle.std.specs.Prelude.{◌≡◌};
ghost use Rattle.rules.specs.Rules.{half_round};
ghost use Rattle.face.specs.Shown.{shown};
ghost use Rattle.filtering.specs.Ends.{half_of};

use crate::overload::check_load;
use crate::pairs::check_pairs;
use crate::shorten::check_room;
use changeover::Numbers;
use face::{Face, Reading};
use rules::Overload;

// A half round: the tests, then the new windows of all rules together.
pub(crate) fn half_round<W: Numbers>(face: &Face, b: &W) -> Result<Face, Overload>
    ensures { half_of result ≡ half_round (shown face.now) (W.Numbers.at b.now) }
{
    check_pairs(face)?;
    let reading = Reading::of(face, b);
    let calm = check_load(&reading)?;
    let windows = calm.new_windows();
    check_room(face, &windows)?;
    let Some(next) = face.with_windows(&windows) else {
        unreachable()
    };
    Ok(next)
}
