// What a bound is, before and after it is worked out.
ghost use Rattle.std.specs.Prelude.{◌≡◌, ℕ, ◌≤◌};
ghost use Rattle.changeover.specs.Rows.{Lawful};
ghost use Rattle.changeover.specs.Table.{jobs_of, gap_of};

use crate::gaps::Gaps;

// A bound that is worked out: a list of numbers b(0) to b(31).
pub trait Numbers {
    // b(e), for each e
    ghost at: { Self → ℕ → ℕ };

    // b(e), or 0 past the list.
    fn number(&self, e: usize) -> u32
        ensures { result ≡ at self.now e };

    ghost first: { (b : Self) → at b 0 ≡ 0 };

    ghost bounded: { (b : Self) (e : ℕ) → at b e ≤ 400000 };

    ghost past: { (b : Self) (e : ℕ) → 32 ≤ e → at b e ≡ 0 };
}

// A bound that is not worked out yet: it has no numbers to ask for.
pub trait Bound: Sized {
    // What it is once worked out.
    type Worked: Numbers + Drop;

    // the numbers that it becomes, of n jobs and the gaps between them
    ghost becomes: { Self → ℕ → (ℕ → ℕ → ℕ) → ℕ → ℕ };

    // Works the bound out for these gaps, and spends it.
    fn work_out(self, gaps: &Gaps) -> Self::Worked
        ensures numbers { (e : ℕ) → Self.Worked.Numbers.at result e ≡ becomes self (jobs_of gaps.now) (gap_of gaps.now) e }
        ensures lawful { Lawful (jobs_of gaps.now) (gap_of gaps.now) (Self.Worked.Numbers.at result) };

    // whatever the jobs and the gaps, the numbers keep the law
    ghost keeps: { (b : Self) (n : ℕ) (gap : ℕ → ℕ → ℕ) → Lawful n gap (becomes b n gap) };
}
