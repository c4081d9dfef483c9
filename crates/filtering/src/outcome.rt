// How rounds and settling end.
use face::Face;
use rules::{Cause, Window};

// Why a round stops, and the windows that its overloaded half round read.
#[derive(Drop)]
pub(crate) struct Stopped {
    pub(crate) cause: Cause,
    pub(crate) held: Face,
}

// How settling ends.
#[derive(Clone, Copy)]
pub struct Outcome {
    // Why there is no plan, where it ends overloaded.
    pub cause: Option<Cause>,
    // The rounds begun.
    pub rounds: u32,
    // The windows held, by card; 0 to 0 past the last job.
    pub held: [Window; 32],
}
