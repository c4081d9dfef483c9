// What an accepted call makes of status, rounds and held windows.
ghost use Rattle.std.specs.Prelude.{◌≡◌};
ghost use Rattle.sheet.specs.Shown.{shown};
ghost use Rattle.sheet.specs.Accepting.{accepting};

use super::Sheet;
use crate::accepted::Accepted;
use rules::Status;

impl Sheet {
    // Found in any status, a sheet whose book has changed is open again, with no rounds, and holds what is posted; settling
    // settles it.
    pub(super) fn accept(&mut self, call: Accepted)
        ensures { shown self.new ≡ accepting (shown self.old) call }
    {
        match (self.status, call) {
            (
                _,
                Accepted::Settled {
                    status,
                    rounds,
                    held,
                },
            ) => {
                self.status = status;
                self.rounds = rounds;
                self.held = held;
            }
            (
                Status::Open | Status::Settled | Status::Overloaded,
                Accepted::Posted | Accepted::Narrowed | Accepted::Withdrawn,
            ) => {
                self.status = Status::Open;
                self.rounds = 0;
                let posted = self.posted;
                self.held = posted;
            }
        }
    }
}
