// What a program may be told to settle with.
use crate::kind::{Kind, KindNumbers};
use changeover::Larger;

// One kind of bound, or the larger of two.
#[derive(Clone, Copy)]
pub enum Choice {
    One(Kind),
    Larger(Kind, Kind),
}

// What it becomes.
#[derive(Drop)]
pub enum ChoiceNumbers {
    One(KindNumbers),
    Two(Larger<KindNumbers, KindNumbers>),
}
