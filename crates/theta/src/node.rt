// What a kind of node is: of a tree, of a tree of white leaves, of a tree of white and grey leaves.
ghost use Rattle.std.specs.Prelude.{◌≡◌, ℕ, ◌≤◌, Option};
ghost use Rattle.theta.specs.Refusals.{leaf_answer};

use crate::refusals::LeafRefusal;
use changeover::Numbers;

// A kind of node: any two can be joined, and a leaf is told its place.
pub trait Node: Sized {
    // what is true of every node of a tree of leaves
    ghost sound: { Self → Type 0 };

    // the empty node
    ghost none: { Self };

    // the join of a left and a right node, by the numbers of a bound
    ghost joined: { (ℕ → ℕ) → Self → Self → Self };

    // a leaf once it is told its place
    ghost placed: { ℕ → Self → Self };

    // The empty node.
    fn empty() -> Self
        ensures { result ≡ none };

    // The join of left l and right r.
    fn join<W: Numbers>(b: &W, l: &Self, r: &Self) -> Self
        ensures { result ≡ joined (W.Numbers.at b.now) l.now r.now };

    // The leaf, told its place.
    fn placed_at(self, place: usize) -> Self
        ensures { result ≡ placed place self };

    // the empty node is sound
    ghost nothing: { sound none };

    // a join of sound nodes is sound
    ghost kept: { (b : ℕ → ℕ) (l r : Self) → sound l → sound r → sound (joined b l r) };

    // a sound leaf stays so when it is told its place
    ghost told: { (p : ℕ) (x : Self) → sound x → sound (placed p x) };

    // with nothing on its left, or on its right, a sound node is the join
    ghost left: { (b : ℕ → ℕ) (x : Self) → b 0 ≡ 0 → sound x → joined b none x ≡ x };

    ghost right: { (b : ℕ → ℕ) (x : Self) → b 0 ≡ 0 → sound x → joined b x none ≡ x };
}

// A kind of node of white leaves.
pub trait ThetaNode: Node {
    // the white leaf of a duration and an earliest finish
    ghost leaf: { ℕ → ℕ → Self };

    // The white leaf of a duration, 1 to 100,000, and an earliest finish, up to 1,000,000.
    fn white_leaf(duration: u32, finish: u32) -> Result<Self, LeafRefusal>
        ensures { result ≡ leaf_answer duration finish (leaf duration finish) };

    // a leaf as made is sound
    ghost whole: { (d f : ℕ) → d ≤ 100000 → f ≤ 1000000 → Self.Node.sound (leaf d f) };
}

// A kind of node of white and grey leaves: of the grey ones at most one counts at a time.
pub trait ThetaLambdaNode: ThetaNode {
    // the grey leaf of a duration and an earliest finish
    ghost grey: { ℕ → ℕ → Self };

    // a white leaf turned grey; any other leaf is kept
    ghost turned: { Self → Self };

    // the place of the grey leaf that is responsible for a later finish, if one is
    ghost cause: { Self → Option ℕ };

    // The grey leaf of a duration, 1 to 100,000, and an earliest finish, up to 1,000,000.
    fn grey_leaf(duration: u32, finish: u32) -> Result<Self, LeafRefusal>
        ensures { result ≡ leaf_answer duration finish (grey duration finish) };

    // A white leaf turned grey; any other leaf is kept.
    fn greyed(self) -> Self
        ensures { result ≡ turned self };

    // The place of the grey leaf that is responsible for a later finish, if one is.
    fn responsible(&self) -> Option<usize>
        ensures { result ≡ cause self.now };

    // a grey leaf as made is sound
    ghost complete: { (d f : ℕ) → d ≤ 100000 → f ≤ 1000000 → Self.Node.sound (grey d f) };

    // a sound leaf stays so when it is turned grey
    ghost turning: { (x : Self) → Self.Node.sound x → Self.Node.sound (turned x) };
}
