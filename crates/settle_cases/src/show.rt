// How a case ends, in words.
use filtering::Outcome;
use rules::{Cause, Settlement};
use std::alloc::{AllocError, Global};

// The cause with its jobs counted from 1.
fn from_one(cause: Cause) -> Cause {
    let Cause { overload, side } = cause;
    let overload = overload.renamed(|j| j.saturating_add(1));
    Cause { overload, side }
}

// Settled or overloaded, after how many rounds and why; and the windows held.
pub fn outcome(heap: Global, jobs: usize, outcome: &Outcome) -> Result<String, AllocError> {
    let settlement = Settlement {
        rounds: outcome.rounds,
        cause: outcome.cause.map(from_one),
    };
    let mut text = format!(in heap; "{settlement}")?;
    for window in outcome.held.iter().take(jobs) {
        text.push_str(format!(in heap; " {window}")?.as_str())?;
    }
    Ok(text)
}
