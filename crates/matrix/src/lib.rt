// The changeover matrix between setups: which numbers are one, and which question refuses the others.
#![tactic(auto)]

mod questions;
mod refusals;

pub use questions::check_matrix;
pub use refusals::{Entry, MatrixRefusal, Triple};
