// The least of a value for each job.
ghost use Rattle.std.specs.Prelude.{◌≡◌, ℕ, ◌<◌};
ghost use Rattle.changeover.specs.Kinds.{least};

// The least of top and of a value for each of so many jobs.
pub(crate) fn least<F: Fn(usize) -> u32>(jobs: usize, top: u32, value: F) -> u32
    requires { (j : ℕ) → j < jobs → F.pre value j }
    ensures { (f : ℕ → ℕ) → ((j x : ℕ) → F.post value j x → x ≡ f j) → result ≡ least top jobs f }
{
    (0..jobs).map(value).fold(top, u32::min)
}
