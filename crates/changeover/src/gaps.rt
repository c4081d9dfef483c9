// A table of the gaps between jobs. Its calls stand below, in calls.rt.
ghost use Rattle.std.specs.Prelude.{◌≡◌, ℕ, ◌≤◌, length, slice_index};

mod calls;

// The gaps between at most 32 jobs, 32 to a row; each is at most 12,000.
// The number of jobs stands beside a table of fixed size: there is no heap.
#[derive(Clone, Copy)]
pub struct Gaps {
    jobs: usize,
    table: [u16; 1024],
    ghost few: { jobs ≤ 32 },
    ghost long: { length table ≡ 1024 },
    ghost small: { (k : ℕ) → slice_index table k ≤ 12000 },
}
