// Loading a page.
ghost use Rattle.std.specs.Prelude.{◌≡◌, true, is_ok};
ghost use Rattle.rules.specs.Histories.{loads, step, Stays};
ghost use Rattle.rules.specs.Models.{reopened};
ghost use Rattle.rules.specs.Pages.{page_of, page_sheet, read_page, load_answer, status_number};
ghost use Rattle.sheet.specs.Shown.{book_of, shown};
ghost use Rattle.archive.specs.Answers.{sheet_of};

use crate::layout::Layout;
use crate::page::Page;
use changeover::Bound;
use rules::{PageFault, Status};
use sheet::Sheet;

// Settles an open sheet, where the page is not open.
fn settle_as<B: Bound + Drop>(sheet: &mut Sheet, status: Status, bound: B)
    requires { shown sheet.old ≡ reopened (book_of sheet.old) }
    ensures { shown sheet.new ≡ page_sheet (B.Bound.becomes bound) (status_number status) (book_of sheet.old) }
{
    match status {
        Status::Open => {}
        Status::Settled | Status::Overloaded => {
            let _ = sheet.settle(bound);
        }
    }
}

// The sheet of a page, settled with a bound where the page is. The questions are asked in their order.
fn read<B: Bound + Drop>(bytes: &[u8], bound: B) -> Result<Sheet, PageFault>
    ensures { sheet_of result ≡ read_page (B.Bound.becomes bound) bytes.now }
{
    let page = Page::new(bytes)?;
    page.check_version()?;
    let mut sheet = page.read_matrix()?;
    let status = page.status()?;
    let setups = sheet.setups();
    let chain = page.read_chain(setups)?;
    let layout = Layout {
        page,
        setups,
        chain,
    };
    layout.check_strays()?;
    layout.post_all(&mut sheet);
    settle_as(&mut sheet, status, bound);
    if !page.agrees(&sheet) {
        return Err(PageFault::Unsettled);
    }
    Ok(sheet)
}

// Replaces a sheet by the one of a page, with a bound of any kind. Saved again, it gives the same bytes.
pub fn load<B: Bound + Drop>(sheet: &mut Sheet, page: &[u8], bound: B) -> Result<(), PageFault>
    ensures answer { result ≡ load_answer (B.Bound.becomes bound) page.now }
    ensures after { shown sheet.new ≡ step (shown sheet.old) (loads page.now (B.Bound.becomes bound)) }
    ensures kept { Stays (shown sheet.old) (loads page.now (B.Bound.becomes bound)) (shown sheet.new) }
    ensures bytes { is_ok result ≡ true → page_of (shown sheet.new) ≡ page.now }
{
    *sheet = read(page, bound)?;
    Ok(())
}
