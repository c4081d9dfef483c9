// The node of white leaves.
ghost use Rattle.std.specs.Prelude.{◌≡◌, ◌+◌};
ghost use Rattle.theta_nodes.specs.White.{capped, after, empty_white, white_leaf, white_join, Sound};
ghost use borrow.Author.Rules.{rules};

use changeover::Numbers;
use theta::{LeafRefusal, Node, ThetaNode};

// Sums stop here.
const TOP: u32 = 1_000_000_000;

// The leaves below added up: what they last, how many they are, and when the last of them can finish at the earliest.
#[derive(Clone, Copy)]
pub struct White {
    pub total: u32,
    pub count: u32,
    pub finish: Option<u32>,
}

// The sum of two numbers, or 1,000,000,000 where it is more.
pub(crate) fn capped_sum(a: u32, b: u32) -> u32
    ensures { result ≡ capped (a + b) }
{
    a.saturating_add(b).min(TOP)
}

// The left part's finish, and the right part with its number after it; none stays none.
pub(crate) fn across<W: Numbers>(b: &W, l: &White, r: &White) -> Option<u32>
    ensures { result ≡ after l.now.finish (r.now.total + W.Numbers.at b.now r.now.count) }
{
    let after = r.total.saturating_add(b.number(r.count as usize));
    l.finish.map(|time| capped_sum(time, after))
}

impl Node for White {
    ghost sound = { Sound };

    ghost none = { empty_white };

    ghost joined = { white_join };

    ghost placed = { λ _ x. x };

    ghost nothing = { Prim.search rules };

    ghost kept = { unfold white_join in Prim.search rules };

    ghost told = { Prim.search rules };

    ghost left = { unfold white_join in Prim.search rules };

    ghost right = { unfold white_join in Prim.search rules };

    fn empty() -> White {
        White {
            total: 0,
            count: 0,
            finish: None,
        }
    }

    #[tactic(auto, unfolding(crate::specs::White::white_join))]
    fn join<W: Numbers>(b: &W, l: &White, r: &White) -> White {
        White {
            total: capped_sum(l.total, r.total),
            count: capped_sum(l.count, r.count),
            finish: r.finish.max(across(b, l, r)),
        }
    }

    fn placed_at(self, _place: usize) -> White {
        self
    }
}

impl ThetaNode for White {
    ghost leaf = { white_leaf };

    ghost whole = { Prim.search rules };

    fn white_leaf(duration: u32, finish: u32) -> Result<White, LeafRefusal> {
        if duration < 1 || duration > 100_000 {
            return Err(LeafRefusal::Duration(duration));
        }
        if finish > 1_000_000 {
            return Err(LeafRefusal::Finish(finish));
        }
        Ok(White {
            total: duration,
            count: 1,
            finish: Some(finish),
        })
    }
}
