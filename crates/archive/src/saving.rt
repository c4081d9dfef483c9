// Writing a sheet as a page.
ghost use Rattle.std.specs.Prelude.{◌≡◌, ◌+◌, ◌<◌, slice_index};
ghost use Rattle.std.specs.List.{flat_map};
ghost use Rattle.rules.specs.Pages.{bytes16, next_in, joined, head_bytes, record_bytes, save_answer, saved, LoadsSame};
ghost use Rattle.chain.specs.Listed.{cards};
ghost use Rattle.sheet.specs.Shown.{book_of, shown};

use crate::writing::{write16, write32};
use chain::Chain;
use rules::PageFault;
use sheet::Sheet;
use std::array;

// The card that follows another; 0 where none does.
fn next_of(chain: &Chain, card: u16) -> u16
    ensures { result ≡ next_in (cards chain.now) card }
{
    chain
        .cards()
        .iter()
        .position(|&other| other == card)
        .map_or(0, |i| chain.card_at(i + 1))
}

// Version, setups, first card, status and rounds.
fn head_bytes(sheet: &Sheet) -> [u8; 12]
    ensures { result ≡ head_bytes (shown sheet.now) }
{
    let mut head = [0; 12];
    write16(&mut head, 0, 1);
    write16(&mut head, 2, sheet.setups());
    write16(&mut head, 4, sheet.chain().card_at(0));
    write16(&mut head, 6, u16::from(sheet.status()));
    write32(&mut head, 8, sheet.rounds());
    head
}

// The changeovers, two bytes each. The closure says what it returns, as an array's bytes are not inferred.
fn changeover_bytes(sheet: &Sheet) -> [[u8; 2]; 256]
    ensures { flat_map (λ piece. piece) result ≡ joined (λ k. bytes16 (slice_index (book_of sheet.now).changeovers k)) 256 }
{
    array::from_fn(
        |k|
            ensures { result ≡ bytes16 (slice_index (book_of sheet.entry.now).changeovers k) }
        { sheet.changeover(k).to_le_bytes() },
    )
}

// The record of a card.
fn record_bytes(sheet: &Sheet, card: u16) -> [u8; 24]
    ensures { result ≡ record_bytes (shown sheet.now) card }
{
    let job = sheet.job(card);
    let posted = sheet.posted(card);
    let held = sheet.held(card);
    let mut record = [0; 24];
    write16(&mut record, 0, next_of(sheet.chain(), card));
    write16(&mut record, 2, job.setup);
    write32(&mut record, 4, job.duration);
    write32(&mut record, 8, posted.early);
    write32(&mut record, 12, posted.late);
    write32(&mut record, 16, held.early);
    write32(&mut record, 20, held.late);
    record
}

// The records of all cards.
fn all_records(sheet: &Sheet) -> [[u8; 24]; 32]
    ensures { flat_map (λ piece. piece) result ≡ joined (λ k. record_bytes (shown sheet.now) (k + 1)) 32 }
{
    array::from_fn(
        |k|
            requires { k < 32 }
            ensures { result ≡ record_bytes (shown sheet.entry.now) (k + 1) }
        { record_bytes(sheet, k as u16 + 1) },
    )
}

// Writes a sheet over a page of 1,292 bytes. With any bound whose numbers are behind its held windows, it loads as the same sheet.
pub fn save(sheet: &Sheet, page: &mut [u8]) -> Result<(), PageFault>
    ensures answer { result ≡ save_answer page.old }
    ensures after { page.new ≡ saved (shown sheet.now) page.old }
    ensures same { LoadsSame (shown sheet.now) }
{
    // That the rounds fit their four bytes is known once they are read.
    let _ = sheet.rounds();
    if page.len() != 1292 {
        return Err(PageFault::Size(page.len()));
    }
    page[0..12].copy_from_slice(&head_bytes(sheet));
    page[12..524].copy_from_slice(changeover_bytes(sheet).as_flattened());
    page[524..1292].copy_from_slice(all_records(sheet).as_flattened());
    Ok(())
}
