// The windows that the rules leave when they take effect together.
ghost use Rattle.std.specs.Prelude.{◌≡◌, ℕ, ◌+◌, min, nat_lt};
ghost use Rattle.rules.specs.Faces.{of_job};
ghost use Rattle.rules.specs.Places.{first_such};
ghost use Rattle.rules.specs.Rules.{shortened};
ghost use Rattle.face.specs.Readings.{bound_of, read};
ghost use Rattle.face.specs.Shown.{early_end, late_end, shown};
ghost use Rattle.filtering.specs.Ends.{early_from, Ruled, verdict};

use crate::detected::{detected_earlies, not_last_lates};
use crate::overload::Calm;
use crate::pairs::pair_early;
use changeover::Numbers;
use face::Face;
use rules::{Overload, Window};

// The early end that the rules leave to job i, where detectable precedences and edge finding leave these; 0 to what is no job.
fn new_early(face: &Face, i: usize, detected: u32, edge: u32) -> u32
    ensures { result ≡ of_job (shown face.now).n (early_from (shown face.now) detected edge) i }
{
    if i < face.jobs() {
        face.early(i)
            .max(pair_early(face, i))
            .max(detected)
            .max(edge)
    } else {
        0
    }
}

// The window that the rules leave to job i, where detectable precedences, edge finding and not-last leave these ends.
fn new_window(face: &Face, i: usize, detected: u32, edge: u32, not_last: u32) -> Window
    ensures early { result.early ≡ of_job (shown face.now).n (early_from (shown face.now) detected edge) i }
    ensures late { result.late ≡ min ((shown face.now).late i) not_last }
{
    let early = new_early(face, i, detected, edge);
    let late = face.late(i).min(not_last);
    Window { early, late }
}

impl<W: Numbers> Calm<'_, W> {
    // The windows that the rules leave, all from the windows as they were.
    pub(crate) fn new_windows(&self) -> [Window; 32]
        ensures { Ruled (read self.now.reading.now) (W.Numbers.at (bound_of self.now.reading.now)) result }
    {
        let face = self.reading.face();
        let detected = detected_earlies(self.reading);
        let edges = self.edge_earlies();
        let not_last = not_last_lates(self.reading);
        let mut windows = [Window { early: 0, late: 0 }; 32];
        for (i, window) in windows[..face.jobs()].iter_mut().enumerate() {
            *window = new_window(face, i, detected[i], edges[i], not_last[i]);
        }
        windows
    }
}

// Whether a window has no room for so many minutes.
fn is_short(window: Window, duration: u32) -> bool
    ensures { result ≡ nat_lt window.late (window.early + duration) }
{
    window.late < window.early || window.late - window.early < duration
}

// The first job whose new window is shorter than its duration.
fn first_short(face: &Face, windows: &[Window; 32]) -> Option<usize>
    ensures { result ≡ first_such (λ i. nat_lt (late_end windows.now i) (early_end windows.now i + (shown face.now).duration i)) (shown face.now).n }
{
    (0..face.jobs()).find(|&i| is_short(windows[i], face.duration(i)))
}

// Refuses the first job whose window the rules, with some numbers, leave shorter than its duration.
pub(crate) fn check_room(face: &Face, windows: &[Window; 32]) -> Result<(), Overload>
    ensures { (b : ℕ → ℕ) → Ruled (shown face.now) b windows.now → result ≡ verdict (shortened (shown face.now) b) }
{
    first_short(face, windows).map_or(Ok(()), |i| Err(Overload::TooShort(i)))
}
