// The cards that are on a sheet, in posting order.
#![tactic(auto)]

mod chain;

pub use chain::Chain;
