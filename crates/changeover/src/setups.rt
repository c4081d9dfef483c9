// The gaps between jobs of which there is one for each setup.
ghost use Rattle.std.specs.Prelude.{◌≡◌, ℕ, ◌+◌, ◌*◌, ◌<◌, ◌≤◌, min, length, slice_index};
ghost use Rattle.matrix.specs.Matrix.{Sized};
ghost use Rattle.changeover.specs.Setups.{OneJobEach};
ghost use Rattle.changeover.specs.Table.{jobs_of, gap_of};

use crate::gaps::Gaps;
use matrix::{MatrixRefusal, check_matrix};

// Writes the numbers, row by row, as the gaps.
fn write_rows(gaps: &mut Gaps, width: usize, numbers: &[u16])
    requires sized { Sized width }
    requires jobs { jobs_of gaps.old ≡ width }
    requires complete { length numbers.now ≡ width * width }
    ensures jobs { jobs_of gaps.new ≡ width }
    ensures each { (i j : ℕ) → i < width → j < width → gap_of gaps.new i j ≡ min (slice_index numbers.now (width * i + j)) 12000 }
{
    for (k, minutes) in numbers.iter().enumerate() {
        let _ = gaps.set_gap(k / width, k % width, *minutes);
    }
}

// The gaps between jobs, one for each setup of a matrix, or why the numbers are no matrix.
pub fn one_job_each(setups: u16, numbers: &[u16]) -> Result<Gaps, MatrixRefusal>
    ensures { OneJobEach setups numbers.now result }
{
    check_matrix(setups, numbers)?;
    let width = usize::from(setups);
    let Some(mut gaps) = Gaps::new(width) else {
        unreachable()
    };
    write_rows(&mut gaps, width, numbers);
    Ok(gaps)
}
