// What the rig keeps, and how it answers a line.
use crate::command::{Command, read};
use changeover::{Gaps, one_job_each};
use lines::AllBounds;
use std::alloc::{AllocError, Global};

// The gaps between jobs, one for each setup of the matrix that was made last.
#[derive(Drop)]
pub struct Desk {
    gaps: Gaps,
}

impl Desk {
    // One setup, with no changeover.
    pub fn blank() -> Desk {
        let Some(gaps) = Gaps::new(1) else {
            unreachable()
        };
        Desk { gaps }
    }

    fn make(&mut self, heap: Global, setups: u16, numbers: &[u16]) -> Result<String, AllocError> {
        match one_job_each(setups, numbers) {
            Ok(gaps) => {
                self.gaps = gaps;
                format!(in heap; "made {setups}\n")
            }
            Err(refusal) => format!(in heap; "refused {refusal}\n"),
        }
    }

    fn bounds(&self, heap: Global) -> Result<String, AllocError> {
        let bounds = AllBounds { gaps: &self.gaps };
        format!(in heap; "{bounds}\n")
    }

    // The answer to a line, ended by a line feed; nothing where it has no words.
    pub fn answer(&mut self, heap: Global, number: u64, line: &str) -> Result<String, AllocError> {
        match read(heap, line) {
            Ok(None) => Ok(String::new(heap)),
            Ok(Some(Command::Make(setups, numbers))) => self.make(heap, setups, numbers.as_slice()),
            Ok(Some(Command::Bounds)) => self.bounds(heap),
            Err(unread) => format!(in heap; "unread {number} {unread}\n"),
        }
    }
}
