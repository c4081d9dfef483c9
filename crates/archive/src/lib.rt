// Archive pages: a sheet as 1,292 bytes, and back.
#![tactic(auto)]

mod bytes;
mod layout;
mod loading;
mod page;
mod saving;
mod writing;

pub use loading::load;
pub use saving::save;
