// What the trees of white leaves and of white and grey leaves share: the nodes of no jobs, and a job put in.
ghost use Rattle.std.specs.Prelude.{◌≡◌, ℕ, ◌<◌, ◌≤◌};
ghost use Rattle.theta.specs.Refusals.{leaf_answer};
ghost use Rattle.theta.specs.Runs.{Begins, Follows, puts};
ghost use Rattle.rules.specs.Faces.{earliest_finish};
ghost use Rattle.rules.specs.Places.{place};
ghost use Rattle.face.specs.Shown.{shown};
ghost use Rattle.face.specs.Readings.{bound_of, read};

use crate::face::Face;
use crate::reading::Reading;
use changeover::Numbers;
use theta::{LeafRefusal, Node, ThetaNode, tree};

// The nodes of a tree of no jobs.
pub(crate) fn no_nodes<N: Node + Copy>() -> [N; 63]
    ensures { (b : ℕ → ℕ) → b 0 ≡ 0 → (turned : N → N) → Begins N.none N.placed turned (N.joined b) result }
{
    let mut nodes = [N::empty(); 63];
    let _ = tree::clear(&mut nodes);
    nodes
}

// The leaf of a job, white.
fn leaf<N: ThetaNode>(face: &Face, j: usize) -> Result<N, LeafRefusal>
    ensures { result ≡ leaf_answer ((shown face.now).duration j) (earliest_finish (shown face.now) j) (N.leaf ((shown face.now).duration j) (earliest_finish (shown face.now) j)) }
{
    N::white_leaf(face.duration(j), face.earliest_finish(j))
}

// Puts the leaf of a job at its place, white; changes nothing where there is no such job.
pub(crate) fn put_job<N: ThetaNode + Copy, W: Numbers>(
    nodes: &mut [N; 63],
    reading: &Reading<'_, W>,
    j: usize,
)
    ensures job { j < (read reading.now).n → (turned : N → N) → Follows N.none N.placed turned (N.joined (W.Numbers.at (bound_of reading.now))) nodes.old nodes.new (puts (place (read reading.now) j) (N.leaf ((read reading.now).duration j) (earliest_finish (read reading.now) j))) }
    ensures outside { (read reading.now).n ≤ j → nodes.new ≡ nodes.old }
{
    if let Ok(leaf) = leaf::<N>(&reading.orders.face, j) {
        let _ = tree::put(reading.bound, nodes, reading.place(j), leaf);
    }
}
