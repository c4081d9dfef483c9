// What the calls of this crate refuse, and the numbers of the refusals, which are given.
ghost use Rattle.std.specs.Prelude.{◌≡◌};
ghost use Rattle.theta.specs.Refusals.{leaf_number};

// Why two numbers are no leaf: the first question that has the answer "no".
#[derive(Clone, Copy)]
pub enum LeafRefusal {
    // The duration is not 1 to 100,000.
    Duration(u32),
    // The earliest finish is above 1,000,000.
    Finish(u32),
}

// Why a call on a tree is refused: the first question that has the answer "no".
#[derive(Clone, Copy)]
pub enum TreeRefusal {
    // So many nodes are not 63.
    Size(usize),
    // The place is above 31.
    Place(usize),
}

impl LeafRefusal {
    // The refusal's number.
    pub fn number(&self) -> u8
        ensures { result ≡ leaf_number self.now }
    {
        match self {
            LeafRefusal::Duration(_) => 9,
            LeafRefusal::Finish(_) => 10,
        }
    }
}

impl TreeRefusal {
    // The refusal's number: both have the same.
    pub fn number(&self) -> u8
        ensures { result ≡ 19 }
    {
        19
    }
}
