// The matrix of a page.
ghost use Rattle.std.specs.Prelude.{◌≡◌, ◌+◌, ◌*◌, ◌/◌, ◌%◌, ◌≤◌, cond, nat_lt, take};
ghost use Rattle.matrix.specs.Matrix.{Sized};
ghost use Rattle.rules.specs.Pages.{le16, page_numbers};
ghost use Rattle.archive.specs.Answers.{sheet_of, matrix_part};
ghost use Rattle.archive.specs.Bytes.{bytes_of};

use super::Page;
use crate::bytes::read16;
use matrix::MatrixRefusal;
use rules::PageFault;
use sheet::Sheet;
use std::array;

impl Page<'_> {
    // The i-th changeover between so many setups, row by row; 0 past the last.
    fn number_at(&self, setups: u16, i: usize) -> u16
        requires { Sized setups }
        ensures { result ≡ cond (nat_lt i (setups * setups)) (le16 (bytes_of self.now) (12 + 2 * (16 * (i / setups) + i % setups))) 0 }
    {
        let width = usize::from(setups);
        if i < width * width {
            read16(self.bytes, 12 + 2 * (16 * (i / width) + i % width))
        } else {
            0
        }
    }

    // The changeovers between so many setups, row by row.
    fn read_numbers(&self, setups: u16) -> [u16; 256]
        requires { Sized setups }
        ensures { take (setups * setups) result ≡ page_numbers (bytes_of self.now) setups }
    {
        array::from_fn(|i| self.number_at(setups, i))
    }

    // A sheet with the page's matrix and no jobs.
    pub(crate) fn read_matrix(&self) -> Result<Sheet, PageFault>
        ensures { sheet_of result ≡ matrix_part (bytes_of self.now) }
    {
        let setups = read16(self.bytes, 2);
        if setups < 1 || setups > 16 {
            return Err(PageFault::Matrix(MatrixRefusal::Setups(setups)));
        }
        let width = usize::from(setups);
        let numbers = self.read_numbers(setups);
        let mut sheet = Sheet::blank();
        sheet.make(setups, &numbers[0..width * width])?;
        Ok(sheet)
    }
}
