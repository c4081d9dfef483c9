// What the lines of commands have in common: comments, numbers, and why a line cannot be read.
#![tactic(auto)]

mod bounds;
mod unread;
mod words;

pub use bounds::AllBounds;
pub use unread::Unread;
pub use words::{long, short, uncommented};
