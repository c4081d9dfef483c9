// What settling means, and that every rule is sound.
#![tactic(auto)]

ghost use Rattle.rules.specs.Theorems.{RulesAlwaysHold, TurningAlwaysHolds, SettlingAlwaysHolds};
ghost use Rattle.rules.specs.Histories.{PromisesKept};

mod faults;
mod outcome;
mod refusals;
mod sheet;

pub use faults::{ChainFault, JobFault, PageFault};
pub use outcome::{Cause, Overload, Side};
pub use refusals::{CardRefusal, JobRefusal};
pub use sheet::{Job, Settlement, Status, UnknownStatus, View, Window};

// States that every rule keeps every possible plan, and that an overload means that there is none.
pub fn rules_hold()
    ensures { RulesAlwaysHold }
{}

// States that turning a face keeps limits, plans, separation and the law.
pub fn turning_holds()
    ensures { TurningAlwaysHolds }
{}

// States what settling promises of every job book.
pub fn settling_holds()
    ensures { SettlingAlwaysHolds }
{}

// States the promises after every list of calls on a sheet that was made.
pub fn promises_kept()
    ensures { PromisesKept }
{}
