// The sheet of one test rig.
#![tactic(auto)]

mod accepted;
mod jobs;
mod rows;
mod sheet;

pub use jobs::check_job;
pub use sheet::Sheet;
