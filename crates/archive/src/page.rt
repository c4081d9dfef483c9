// A page. What is read off it stands below: its head, its matrix, its records, its chain, and whether it agrees with a sheet.
ghost use Rattle.std.specs.Prelude.{◌≡◌, length};

mod agreement;
mod head;
mod links;
mod numbers;
mod record;

// The 1,292 bytes of a page.
#[derive(Clone, Copy)]
pub(crate) struct Page<'a> {
    bytes: &'a [u8],
    ghost size: { length bytes.now ≡ 1292 },
}
