// The node of white and grey leaves.
ghost use Rattle.std.specs.Prelude.{◌≡◌, ◌+◌};
ghost use Rattle.theta_nodes.specs.Grey.{only, lower, all_white, all_grey, empty_grey, white_leaf_in, grey_leaf, turned_grey, grey_placed, grey_total, grey_count, heavier, blamed, grey_join, GreySound};
ghost use borrow.Author.Rules.{rules};
ghost use Rattle.theta_nodes.specs.White.{later, white_join};

use crate::white::{White, across, capped_sum};
use changeover::Numbers;
use theta::{LeafRefusal, Node, ThetaLambdaNode, ThetaNode};

// The white leaves below, and in `grey` the same with the one grey leaf more that gives each number its greatest value;
// the place that is responsible for a later finish, and the lowest place that gives the greatest total.
#[derive(Clone, Copy)]
pub struct Grey {
    pub white: White,
    pub grey: White,
    pub responsible: Option<usize>,
    pub heaviest: Option<usize>,
}

// White leaves only: the grey part repeats the white one.
fn all_white(leaves: White) -> Grey
    ensures { result ≡ all_white leaves }
{
    Grey {
        white: leaves,
        grey: leaves,
        responsible: None,
        heaviest: None,
    }
}

// A grey leaf, not told its place yet.
fn all_grey(leaf: White) -> Grey
    ensures { result ≡ all_grey leaf }
{
    Grey {
        white: <White as Node>::empty(),
        grey: leaf,
        responsible: Some(0),
        heaviest: Some(0),
    }
}

// The place, where the test holds.
fn only_if(test: bool, place: Option<usize>) -> Option<usize>
    ensures { result ≡ only test place }
{
    place.filter(|_| test)
}

// The lower of two places, or the one that there is; `min` alone would take none for the lower.
fn lower_of(a: Option<usize>, b: Option<usize>) -> Option<usize>
    ensures { result ≡ lower a b }
{
    a.zip(b).map(|(x, y)| x.min(y)).or(a).or(b)
}

// The count, and one more where a grey leaf lies below.
fn grey_count(count: u32, left: Option<usize>, right: Option<usize>) -> u32
    ensures { result ≡ grey_count count left right }
{
    left.or(right).map_or(count, |_| capped_sum(count, 1))
}

// The sum of two numbers, which always fits.
fn wide_sum(a: u32, b: u32) -> u64
    ensures { result ≡ a + b }
{
    u64::from(a) + u64::from(b)
}

// The lowest place that gives the greatest total.
fn heavier_of(l: &Grey, r: &Grey) -> Option<usize>
    ensures { result ≡ heavier l.now r.now }
{
    let left = wide_sum(l.grey.total, r.white.total);
    let right = wide_sum(l.white.total, r.grey.total);
    l.heaviest.filter(|_| right <= left).or(r.heaviest)
}

// The greater total with one grey leaf, of the left part or of the right one.
fn heavier_total(l: &Grey, r: &Grey) -> u32
    ensures { result ≡ grey_total l.now r.now }
{
    let left = capped_sum(l.grey.total, r.white.total);
    left.max(capped_sum(l.white.total, r.grey.total))
}

// The latest of three times; none is below every time.
fn latest(a: Option<u32>, b: Option<u32>, c: Option<u32>) -> Option<u32>
    ensures { result ≡ later (later a b) c }
{
    a.max(b).max(c)
}

// Whose doing a finish is: white is e, all is e', left and right are e' by a grey leaf of that part.
fn blame(
    white: Option<u32>,
    all: Option<u32>,
    left: Option<u32>,
    right: Option<u32>,
    l: &Grey,
    r: &Grey,
) -> Option<usize>
    ensures { result ≡ blamed white all left right l.now r.now }
{
    if all == white {
        return None;
    }
    if left == all {
        return l.responsible;
    }
    lower_of(
        only_if(r.grey.finish == all, r.responsible),
        only_if(right == all, r.heaviest),
    )
}

impl Node for Grey {
    ghost sound = { GreySound };

    ghost none = { empty_grey };

    ghost joined = { grey_join };

    ghost placed = { grey_placed };

    ghost nothing = { Prim.search rules };

    ghost kept = { unfold grey_join white_join in Prim.search rules };

    ghost told = { Prim.search rules };

    ghost left = { unfold grey_join white_join in Prim.search rules };

    ghost right = { unfold grey_join white_join in Prim.search rules };

    fn empty() -> Grey {
        all_white(<White as Node>::empty())
    }

    #[tactic(auto, unfolding(crate::specs::Grey::grey_join))]
    fn join<W: Numbers>(b: &W, l: &Grey, r: &Grey) -> Grey {
        let white = <White as Node>::join(b, &l.white, &r.white);
        let right = across(b, &l.white, &r.grey);
        let left = across(b, &l.grey, &r.white);
        let finish = latest(r.grey.finish, right, left);
        let grey = White {
            total: heavier_total(l, r),
            count: grey_count(white.count, l.heaviest, r.heaviest),
            finish,
        };
        Grey {
            white,
            grey,
            responsible: blame(white.finish, finish, left, right, l, r),
            heaviest: heavier_of(l, r),
        }
    }

    fn placed_at(self, place: usize) -> Grey {
        Grey {
            white: self.white,
            grey: self.grey,
            responsible: self.responsible.map(|_| place),
            heaviest: self.heaviest.map(|_| place),
        }
    }
}

impl ThetaNode for Grey {
    ghost leaf = { white_leaf_in };

    ghost whole = { Prim.search rules };

    fn white_leaf(duration: u32, finish: u32) -> Result<Grey, LeafRefusal> {
        let leaf = <White as ThetaNode>::white_leaf(duration, finish)?;
        Ok(all_white(leaf))
    }
}

impl ThetaLambdaNode for Grey {
    ghost grey = { grey_leaf };

    ghost turned = { turned_grey };

    ghost cause = { λ x. x.responsible };

    ghost complete = { Prim.search rules };

    ghost turning = { Prim.search rules };

    fn grey_leaf(duration: u32, finish: u32) -> Result<Grey, LeafRefusal> {
        let leaf = <White as ThetaNode>::white_leaf(duration, finish)?;
        Ok(all_grey(leaf))
    }

    fn greyed(self) -> Grey {
        if self.white.count == 1 && self.white.finish.is_some() && self.heaviest.is_none() {
            all_grey(self.white)
        } else {
            self
        }
    }

    fn responsible(&self) -> Option<usize> {
        self.responsible
    }
}
