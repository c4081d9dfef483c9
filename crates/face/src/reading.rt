// A face read once. Its calls stand below, in calls.rt.
ghost use Rattle.rules.specs.Faces.{earliest_finish, latest_start};
ghost use Rattle.face.specs.Shown.{shown};
ghost use Rattle.face.specs.Orders.{Placed, Listed};

use crate::face::Face;

mod calls;

// A face, the place of each job, and the jobs in the orders that the rules go by.
// There is no heap: each list has 32 places, and as many entries as there are jobs.
#[derive(Clone, Copy)]
pub(crate) struct Orders {
    pub(crate) face: Face,
    places: [usize; 32],
    by_early: [usize; 32],
    by_late: [usize; 32],
    by_latest_start: [usize; 32],
    by_earliest_finish: [usize; 32],
    ghost seated: { Placed (shown face) places },
    ghost rising: { Listed (shown face).n (shown face).early by_early },
    ghost closing: { Listed (shown face).n (shown face).late by_late },
    ghost starting: { Listed (shown face).n (latest_start (shown face)) by_latest_start },
    ghost finishing: { Listed (shown face).n (earliest_finish (shown face)) by_earliest_finish },
}

// A face that is read once, and a bound. It copies, whether the bound does or not: it lends the bound.
#[derive_where(Clone, Copy)]
pub struct Reading<'a, W> {
    pub(crate) orders: Orders,
    pub(crate) bound: &'a W,
}
