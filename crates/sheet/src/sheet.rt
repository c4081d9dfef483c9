// The sheet of one rig. Its calls stand below, in calls.rt.
ghost use Rattle.rules.specs.Sounds.{Sound};
ghost use Rattle.chain.specs.Listed.{cards};

use chain::Chain;
use rules::{Job, Status, Window};

mod accept;
mod calls;
mod in_order;
mod parts;
mod printing;
mod questions;
mod settling;

// What is on no card.
const NO_JOB: Job = Job {
    setup: 0,
    duration: 0,
};

const NO_WINDOW: Window = Window { early: 0, late: 0 };

// A job book and what is held of it. Jobs and windows stand by card, zeros where the card is not on the sheet.
// Plain arrays by card place are a rule of the project: an accepted call makes the held array the posted one as a whole.
#[derive(Clone, Copy)]
pub struct Sheet {
    setups: u16,
    changeovers: [u16; 256],
    chain: Chain,
    jobs: [Job; 32],
    posted: [Window; 32],
    held: [Window; 32],
    status: Status,
    rounds: u32,
    ghost sound: { ∥ Sound (record { setups = setups; changeovers = changeovers; chain = cards chain; jobs = jobs; posted = posted }) ∥₁ },
}
