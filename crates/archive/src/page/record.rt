// The record of a card.
ghost use Rattle.std.specs.Prelude.{◌≡◌, ◌≤◌, length};
ghost use Rattle.rules.specs.Models.{job_answer};
ghost use Rattle.rules.specs.Pages.{on_record, job_in, posted_in};
ghost use Rattle.archive.specs.Bytes.{bytes_of};
ghost use Rattle.archive.specs.Records.{record_from, record_in};

use super::Page;
use crate::bytes::{read16, read32};
use rules::{Job, JobFault, Window};
use sheet::check_job;

// What stands on a card: the next card, the job and its windows.
#[derive(Clone, Copy)]
pub(crate) struct Record {
    pub(crate) next: u16,
    pub(crate) job: Job,
    pub(crate) posted: Window,
    pub(crate) held: Window,
}

// The bytes of a record past the last one.
const NO_RECORD: [u8; 24] = [0; 24];

// The record that a part of a page begins with.
fn read_record(part: &[u8]) -> Record
    requires { 24 ≤ length part.now }
    ensures { result ≡ record_from part.now }
{
    Record {
        next: read16(part, 0),
        job: Job {
            setup: read16(part, 2),
            duration: read32(part, 4),
        },
        posted: Window {
            early: read32(part, 8),
            late: read32(part, 12),
        },
        held: Window {
            early: read32(part, 16),
            late: read32(part, 20),
        },
    }
}

impl Page<'_> {
    // The record of a card; zeros past the last card.
    pub(crate) fn record(&self, card: u16) -> Record
        ensures { result ≡ record_in (bytes_of self.now) card }
    {
        let at = 524 + 24 * usize::from(card).saturating_sub(1);
        read_record(self.bytes.get(at..at + 24).unwrap_or(&NO_RECORD))
    }

    // Whether the job on a card may stand on a sheet of so many setups.
    pub(crate) fn check_record(&self, setups: u16, card: u16) -> Result<(), JobFault>
        ensures { result ≡ on_record card (job_answer setups (job_in (bytes_of self.now) card) (posted_in (bytes_of self.now) card)) }
    {
        let found = self.record(card);
        check_job(setups, found.job, found.posted).map_err(|refusal| JobFault { card, refusal })
    }
}
