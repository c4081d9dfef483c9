// What the root of a tree of white and grey leaves tells.
#![tactic(auto)]

ghost use Rattle.std.specs.Prelude.{◌≡◌, length, slice_index_or};
ghost use Rattle.theta.specs.Refusals.{sized};
ghost use Rattle.theta_nodes.specs.Grey.{empty_grey};
ghost use Rattle.theta_lambda.specs.Tells.{Told};

use changeover::Numbers;
use theta::{TreeRefusal, tree};
use theta_nodes::Grey;

// The root: of the tree of any leaves, it tells the finish and the total of the white ones, the greatest with one grey leaf more,
// and the lowest places that give them.
pub fn grey_root<W: Numbers>(b: &W, nodes: &[Grey]) -> Result<Grey, TreeRefusal>
    ensures answer { result ≡ sized (length nodes.now) (slice_index_or nodes.now 0 empty_grey) }
    ensures tells { Told (W.Numbers.at b.now) nodes.now result }
{
    tree::root(nodes)
}
