// The nodes of white leaves, and of white and grey leaves.
#![tactic(auto)]

mod grey;
mod white;

pub use grey::Grey;
pub use white::White;
