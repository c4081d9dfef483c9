// The windows, durations and gaps of some jobs, as a half round reads them.
#![tactic(auto)]

mod face;
mod grey_tree;
mod job;
mod nodes;
mod order;
mod reading;
mod white_tree;

pub use face::Face;
pub use grey_tree::{GreyTree, Latest};
pub use job::Job;
pub use reading::Reading;
pub use white_tree::WhiteTree;
