// The questions that are asked of a card and of a job.
ghost use Rattle.std.specs.Prelude.{◌≡◌, cond, Ok, Err};
ghost use Rattle.rules.specs.Cards.{is_card};
ghost use Rattle.rules.specs.Models.{room_answer, job_answer};
ghost use Rattle.sheet.specs.Asked.{is_card_answer};

use rules::{CardRefusal, Job, JobRefusal, Window};

// Whether there is such a card.
pub(crate) fn check_card(card: u16) -> Result<(), CardRefusal>
    ensures { result ≡ is_card_answer card }
{
    if card < 1 || card > 32 {
        return Err(CardRefusal::Card(card));
    }
    Ok(())
}

// Whether a window has room for so many minutes.
pub(crate) fn check_room(duration: u32, window: Window) -> Result<(), JobRefusal>
    ensures { result ≡ room_answer duration window }
{
    if window.early > window.late || window.late - window.early < duration {
        return Err(JobRefusal::Room(window));
    }
    Ok(())
}

// Whether a job may stand on a sheet of so many setups.
pub fn check_job(setups: u16, job: Job, window: Window) -> Result<(), JobRefusal>
    ensures { result ≡ job_answer setups job window }
{
    if job.setup < 1 || job.setup > setups {
        return Err(JobRefusal::Setup(job.setup));
    }
    if job.duration < 1 || job.duration > 100_000 {
        return Err(JobRefusal::Duration(job.duration));
    }
    if window.late > 1_000_000 {
        return Err(JobRefusal::LateEnd(window.late));
    }
    check_room(job.duration, window)
}
