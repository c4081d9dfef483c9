// A list of cards. Its calls stand below, in calls.rt.
ghost use Rattle.std.specs.Prelude.{◌≡◌, ◌≤◌, true, take};
ghost use Rattle.rules.specs.Cards.{chained};

mod calls;

// Cards from 1 to 32, none of them twice. There is no heap: 32 places, of which the first `count` hold the cards.
#[derive(Clone, Copy)]
pub struct Chain {
    order: [u16; 32],
    count: usize,
    ghost few: { count ≤ 32 },
    ghost good: { chained (take count order) ≡ true },
}
