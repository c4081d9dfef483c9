// The gaps between jobs, and lower bounds on what the gaps of a row of jobs add up to.
#![tactic(auto)]

mod bound;
mod gaps;
mod larger;
mod least;
mod least_gap;
mod no_bound;
mod refusals;
mod setups;
mod shortest_walk;

pub use bound::{Bound, Numbers};
pub use gaps::Gaps;
pub use larger::Larger;
pub use least_gap::{LeastGap, Multiples};
pub use no_bound::{NoBound, Zeros};
pub use refusals::NoSuchJob;
pub use setups::one_job_each;
pub use shortest_walk::{Listed, ShortestWalk};
