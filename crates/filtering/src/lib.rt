// Settling as it runs: the rules over a face, half rounds, rounds, and settling.
#![tactic(auto)]

mod detected;
mod edges;
mod half;
mod outcome;
mod overload;
mod pairs;
mod round;
mod sets;
mod settling;
mod shorten;

pub use outcome::Outcome;
pub use rules::Window;
pub use settling::settle;
