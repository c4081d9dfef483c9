// The calls that change a sheet, once they are accepted.
use rules::{Status, Window};

// Settling brings how it ended.
#[derive(Clone, Copy)]
pub(crate) enum Accepted {
    Posted,
    Narrowed,
    Withdrawn,
    Settled {
        status: Status,
        rounds: u32,
        held: [Window; 32],
    },
}
