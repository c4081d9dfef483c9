// The calls on a tree: 63 nodes, with the root at 0, the children of node i at 2i + 1 and 2i + 2, and the leaf of place p at 31 + p.
// The caller lends the nodes and keeps them, so what the calls say of them stands in the clauses of each call, and in no type.
ghost use Rattle.std.specs.Prelude.{◌≡◌, ℕ, ◌+◌, ◌<◌, ◌≤◌, eqb, length, if◌then◌else◌, Ok, Err, slice_index_or};
ghost use Rattle.theta.specs.Refusals.{sized, seated};
ghost use Rattle.theta.specs.Tree.{rejoined, replaced, stepped, emptied, Elsewhere};
ghost use Rattle.theta.specs.Lifts.{read_off, place_of, leaf_of};
ghost use Rattle.theta.specs.Runs.{Call, puts, greys, drops, lifts, sets_back, seat, comes, Follows, Begins};

use crate::lifted::Lifted;
use crate::node::{Node, ThetaLambdaNode};
use crate::refusals::TreeRefusal;
use changeover::Numbers;

// A leaf that could not be set back, and why.
pub struct StillLifted<N> {
    pub token: Lifted<N>,
    pub refusal: TreeRefusal,
}

// Whether so many nodes are a tree.
fn check_size(many: usize) -> Result<(), TreeRefusal>
    ensures { result ≡ sized many tt }
{
    if many != 63 {
        return Err(TreeRefusal::Size(many));
    }
    Ok(())
}

// Whether so many nodes are a tree, and this is a place of it.
fn check_seat(many: usize, place: usize) -> Result<(), TreeRefusal>
    ensures { result ≡ seated many place tt }
{
    check_size(many)?;
    if place > 31 {
        return Err(TreeRefusal::Place(place));
    }
    Ok(())
}

// Node i; past the last node, the empty one.
fn node_at<N: Node + Copy>(nodes: &[N], i: usize) -> N
    ensures { result ≡ slice_index_or nodes.now i N.none }
{
    nodes.get(i).copied().unwrap_or(N::empty())
}

// What stands at a place: the empty node where there is no such place.
fn stands_at<N: Node + Copy>(nodes: &[N], place: usize) -> N
    ensures { result ≡ slice_index_or nodes.now (31 + place) N.none }
{
    node_at(nodes, place.saturating_add(31))
}

// Node i becomes the join of its children.
fn rejoin<N: Node + Copy, W: Numbers>(b: &W, nodes: &mut [N], i: usize)
    requires size { length nodes.old ≡ 63 }
    requires inner { i < 31 }
    ensures { nodes.new ≡ rejoined N.none (N.joined (W.Numbers.at b.now)) nodes.old i }
{
    let l = node_at(nodes, 2 * i + 1);
    let r = node_at(nodes, 2 * i + 2);
    nodes[i] = N::join(b, &l, &r);
}

// The leaf of a place becomes x, and the five nodes above it follow: how many are written.
// A climb from child to parent walks neither a slice nor a range: its test says where it ends.
fn replace<N: Node + Copy, W: Numbers>(b: &W, nodes: &mut [N], place: usize, x: N) -> u32
    requires size { length nodes.old ≡ 63 }
    requires inner { place ≤ 31 }
    ensures six { result ≡ 6 }
    ensures made { nodes.new ≡ replaced N.none (N.joined (W.Numbers.at b.now)) nodes.old place x }
    ensures others { Elsewhere N.none nodes.old nodes.new place }
{
    let mut at = 31 + place;
    nodes[at] = x;
    let mut written = 1;
    while at > 0 {
        at = (at - 1) / 2;
        rejoin(b, nodes, at);
        written += 1;
    }
    written
}

// Puts x at a place as it is: how many nodes are written.
fn step<N: Node + Copy, W: Numbers>(
    b: &W,
    nodes: &mut [N],
    place: usize,
    x: N,
) -> Result<u32, TreeRefusal>
    ensures answer { result ≡ seated (length nodes.old) place 6 }
    ensures after { nodes.new ≡ stepped N.none (N.joined (W.Numbers.at b.now)) nodes.old place x }
    ensures others { Elsewhere N.none nodes.old nodes.new place }
    ensures fresh { (turned : N → N) (call : Call N) → seat call ≡ place → comes N.none N.placed turned call (slice_index_or nodes.old (31 + place) N.none) ≡ x → Follows N.none N.placed turned (N.joined (W.Numbers.at b.now)) nodes.old nodes.new call }
{
    check_seat(nodes.len(), place)?;
    Ok(replace(b, nodes, place, x))
}

// Makes every node empty. `fill` clones, and of a clone a kind of node promises nothing: so each node is written.
pub fn clear<N: Node + Copy>(nodes: &mut [N]) -> Result<(), TreeRefusal>
    ensures answer { result ≡ sized (length nodes.old) tt }
    ensures after { nodes.new ≡ emptied N.none nodes.old }
    ensures fresh { length nodes.old ≡ 63 → (b : ℕ → ℕ) → b 0 ≡ 0 → (turned : N → N) → Begins N.none N.placed turned (N.joined b) nodes.new }
{
    check_size(nodes.len())?;
    for x in nodes.iter_mut() {
        *x = N::empty();
    }
    Ok(())
}

// Puts a leaf at a place, which it is told, in the place of what stands there.
pub fn put<N: Node + Copy, W: Numbers>(
    b: &W,
    nodes: &mut [N],
    place: usize,
    leaf: N,
) -> Result<u32, TreeRefusal>
    ensures answer { result ≡ seated (length nodes.old) place 6 }
    ensures after { nodes.new ≡ stepped N.none (N.joined (W.Numbers.at b.now)) nodes.old place (N.placed place leaf) }
    ensures others { Elsewhere N.none nodes.old nodes.new place }
    ensures fresh { (turned : N → N) → Follows N.none N.placed turned (N.joined (W.Numbers.at b.now)) nodes.old nodes.new (puts place leaf) }
{
    step(b, nodes, place, leaf.placed_at(place))
}

// Turns the white leaf of a place grey, and tells it its place; any other leaf is kept.
pub fn grey<N: ThetaLambdaNode + Copy, W: Numbers>(
    b: &W,
    nodes: &mut [N],
    place: usize,
) -> Result<u32, TreeRefusal>
    ensures answer { result ≡ seated (length nodes.old) place 6 }
    ensures after { nodes.new ≡ stepped N.none (N.joined (W.Numbers.at b.now)) nodes.old place (N.placed place (N.turned (slice_index_or nodes.old (31 + place) N.none))) }
    ensures others { Elsewhere N.none nodes.old nodes.new place }
    ensures fresh { Follows N.none N.placed N.turned (N.joined (W.Numbers.at b.now)) nodes.old nodes.new (greys place) }
{
    let leaf = stands_at(nodes, place);
    step(b, nodes, place, leaf.greyed().placed_at(place))
}

// Makes a place empty.
pub fn drop<N: Node + Copy, W: Numbers>(
    b: &W,
    nodes: &mut [N],
    place: usize,
) -> Result<u32, TreeRefusal>
    ensures answer { result ≡ seated (length nodes.old) place 6 }
    ensures after { nodes.new ≡ stepped N.none (N.joined (W.Numbers.at b.now)) nodes.old place N.none }
    ensures others { Elsewhere N.none nodes.old nodes.new place }
    ensures fresh { (turned : N → N) → Follows N.none N.placed turned (N.joined (W.Numbers.at b.now)) nodes.old nodes.new (drops place) }
{
    step(b, nodes, place, N::empty())
}

// Takes a leaf out of its place, which is empty until the leaf is set back.
pub fn lift<N: Node + Copy, W: Numbers>(
    b: &W,
    nodes: &mut [N],
    place: usize,
) -> Result<(Lifted<N>, u32), TreeRefusal>
    ensures answer { read_off result ≡ seated (length nodes.old) place (place, slice_index_or nodes.old (31 + place) N.none, 6) }
    ensures after { nodes.new ≡ stepped N.none (N.joined (W.Numbers.at b.now)) nodes.old place N.none }
    ensures others { Elsewhere N.none nodes.old nodes.new place }
    ensures fresh { (turned : N → N) → Follows N.none N.placed turned (N.joined (W.Numbers.at b.now)) nodes.old nodes.new (lifts place) }
{
    let leaf = stands_at(nodes, place);
    let nothing = N::empty();
    let written = step(b, nodes, place, nothing)?;
    Ok((Lifted { place, leaf }, written))
}

// Sets a lifted leaf back, in the place of what stands where it stood, or hands it back where the nodes are not a tree.
pub fn set_back<N: Node + Copy, W: Numbers>(
    b: &W,
    nodes: &mut [N],
    token: Lifted<N>,
) -> Result<u32, StillLifted<N>>
    ensures answer { result ≡ (if eqb (length nodes.old) 63 then Ok 6 else Err (record { token = token; refusal = TreeRefusal.Size (length nodes.old) })) }
    ensures after { nodes.new ≡ stepped N.none (N.joined (W.Numbers.at b.now)) nodes.old (place_of token) (leaf_of token) }
    ensures others { Elsewhere N.none nodes.old nodes.new (place_of token) }
    ensures fresh { (turned : N → N) → Follows N.none N.placed turned (N.joined (W.Numbers.at b.now)) nodes.old nodes.new (sets_back (place_of token) (leaf_of token)) }
{
    match step(b, nodes, token.place, token.leaf) {
        Ok(written) => {
            let Lifted { place: _, leaf: _ } = token;
            Ok(written)
        }
        Err(refusal) => Err(StillLifted { token, refusal }),
    }
}

// The root.
pub fn root<N: Node + Copy>(nodes: &[N]) -> Result<N, TreeRefusal>
    ensures { result ≡ sized (length nodes.now) (slice_index_or nodes.now 0 N.none) }
{
    check_size(nodes.len())?;
    Ok(nodes[0])
}

// The leaf of a place.
pub fn leaf<N: Node + Copy>(nodes: &[N], place: usize) -> Result<N, TreeRefusal>
    ensures { result ≡ seated (length nodes.now) place (slice_index_or nodes.now (31 + place) N.none) }
{
    check_seat(nodes.len(), place)?;
    Ok(stands_at(nodes, place))
}
