// Reading a face once, and asking for places and jobs: plain numbers, of which what is known stands on the call.
ghost use Rattle.std.specs.Prelude.{◌≡◌, ℕ, ◌<◌, ◌≤◌, slice_index};
ghost use Rattle.rules.specs.Faces.{earliest_finish, latest_start};
ghost use Rattle.rules.specs.Places.{place};
ghost use Rattle.face.specs.Shown.{shown};
ghost use Rattle.face.specs.Orders.{HasRank, Listed, Placed};
ghost use Rattle.face.specs.Readings.{bound_of, read};

use super::{Orders, Reading};
use crate::face::Face;
use crate::order::Keys;

// The place of each job.
fn places(face: &Face) -> [usize; 32]
    ensures { Placed (shown face.now) result }
{
    Keys::of(face, |j| face.early(j)).ranks()
}

// The jobs by early end, from the place of each.
fn by_early(face: &Face, places: &[usize; 32]) -> [usize; 32]
    requires { Placed (shown face.now) places.now }
    ensures { Listed (shown face.now).n (shown face.now).early result }
{
    Keys::by_rank(&places[..face.jobs()])
}

// The jobs by late end.
fn by_late(face: &Face) -> [usize; 32]
    ensures { Listed (shown face.now).n (shown face.now).late result }
{
    Keys::of(face, |j| face.late(j)).order()
}

// The jobs by latest start.
fn by_latest_start(face: &Face) -> [usize; 32]
    ensures { Listed (shown face.now).n (latest_start (shown face.now)) result }
{
    Keys::of(face, |j| face.latest_start(j)).order()
}

// The jobs by earliest finish.
fn by_earliest_finish(face: &Face) -> [usize; 32]
    ensures { Listed (shown face.now).n (earliest_finish (shown face.now)) result }
{
    Keys::of(face, |j| face.earliest_finish(j)).order()
}

impl Orders {
    // The orders of the jobs of a face.
    fn of(face: &Face) -> Orders
        ensures { result.face ≡ face.now }
    {
        let places = places(face);
        Orders {
            face: *face,
            places,
            by_early: by_early(face, &places),
            by_late: by_late(face),
            by_latest_start: by_latest_start(face),
            by_earliest_finish: by_earliest_finish(face),
        }
    }
}

impl<'a, W> Reading<'a, W> {
    // Reads a face, and keeps a bound beside it.
    pub fn of(face: &Face, bound: &'a W) -> Reading<'a, W>
        ensures face { read result ≡ shown face.now }
        ensures bound { bound_of result ≡ bound.now }
    {
        Reading {
            orders: Orders::of(face),
            bound,
        }
    }

    // The face that was read.
    pub fn face(&self) -> &Face
        ensures { shown result.now ≡ read self.now }
    {
        &self.orders.face
    }

    // Entry t of a list of the jobs; 0 past them.
    fn entry(&self, list: &[usize; 32], t: usize) -> usize
        ensures inside { t < (read self.now).n → result ≡ slice_index list.now t }
        ensures outside { (read self.now).n ≤ t → result ≡ 0 }
    {
        list[..self.orders.face.jobs()].get(t).copied().unwrap_or(0)
    }

    // The place of a job, at most 31; 0 where there is no such job.
    pub fn place(&self, j: usize) -> usize
        ensures small { result ≤ 31 }
        ensures value { j < (read self.now).n → result ≡ place (read self.now) j }
        ensures outside { (read self.now).n ≤ j → result ≡ 0 }
    {
        self.entry(&self.orders.places, j)
    }

    // The job at a place; 0 where no job has that place.
    pub fn job_at(&self, seat: usize) -> usize
        ensures job { seat < (read self.now).n → HasRank (read self.now).n (read self.now).early seat result }
        ensures outside { (read self.now).n ≤ seat → result ≡ 0 }
    {
        self.entry(&self.orders.by_early, seat)
    }

    // The job of rank t in late order; 0 where there is none.
    pub fn late_job(&self, t: usize) -> usize
        ensures job { t < (read self.now).n → HasRank (read self.now).n (read self.now).late t result }
        ensures outside { (read self.now).n ≤ t → result ≡ 0 }
    {
        self.entry(&self.orders.by_late, t)
    }

    // The job of rank t by latest start; 0 where there is none.
    pub fn starting_job(&self, t: usize) -> usize
        ensures job { t < (read self.now).n → HasRank (read self.now).n (latest_start (read self.now)) t result }
        ensures outside { (read self.now).n ≤ t → result ≡ 0 }
    {
        self.entry(&self.orders.by_latest_start, t)
    }

    // The job of rank t by earliest finish; 0 where there is none.
    pub fn finishing_job(&self, t: usize) -> usize
        ensures job { t < (read self.now).n → HasRank (read self.now).n (earliest_finish (read self.now)) t result }
        ensures outside { (read self.now).n ≤ t → result ≡ 0 }
    {
        self.entry(&self.orders.by_earliest_finish, t)
    }
}
