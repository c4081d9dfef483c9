// A matrix laid into rows of 16.
ghost use Rattle.std.specs.Prelude.{◌≡◌, ◌*◌, length};
ghost use Rattle.rules.specs.Books.{laid, laid_out};

use std::array;

// The changeover at a place of rows of 16; 0 outside the matrix.
fn laid_at(setups: u16, numbers: &[u16], k: usize) -> u16
    requires { length numbers.now ≡ setups * setups }
    ensures { result ≡ laid setups numbers.now k }
{
    let width = usize::from(setups);
    let from = k / 16;
    let to = k % 16;
    if from < width && to < width {
        numbers[width * from + to]
    } else {
        0
    }
}

// The numbers of a matrix, row by row, laid into rows of 16.
pub(crate) fn laid_out(setups: u16, numbers: &[u16]) -> [u16; 256]
    requires { length numbers.now ≡ setups * setups }
    ensures { result ≡ laid_out setups numbers.now }
{
    array::from_fn(|k| laid_at(setups, numbers, k))
}
