// Pages in files.
use archive::{load, save};
use kinds::Choice;
use sheet::Sheet;
use std::alloc::AllocError;
use std::{fs, io};

// Writes a page whole or not at all: beside the file first, and then in its place.
fn replace_file(rt: &HostRuntime, path: &str, page: &[u8]) -> io::Result<()> {
    let beside = format!(in rt.alloc(); "{path}.part")?;
    match fs::write(rt, beside.as_str(), page) {
        Ok(()) => fs::rename(rt, beside.as_str(), path),
        Err(fault) => {
            let _ = fs::remove_file(rt, beside.as_str());
            Err(fault)
        }
    }
}

// "saved", or "unsaved" and why.
pub fn save_to(rt: &HostRuntime, sheet: &Sheet, path: &str) -> Result<String, AllocError> {
    let heap = rt.alloc();
    let mut page = [0; 1292];
    if let Err(fault) = save(sheet, &mut page) {
        return format!(in heap; "refused {fault}\n");
    }
    match replace_file(rt, path, &page) {
        Ok(()) => String::from_str(heap, "saved\n"),
        Err(fault) => format!(in heap; "unsaved {path} {fault}\n"),
    }
}

// The sheet of the page, or "refused", number, card and byte; or "unloaded" and why, where the file cannot be read.
pub fn load_from(
    rt: &HostRuntime,
    sheet: &mut Sheet,
    path: &str,
    choice: Choice,
) -> Result<String, AllocError> {
    let heap = rt.alloc();
    let page = match fs::read(rt, path) {
        Ok(page) => page,
        Err(fault) => return format!(in heap; "unloaded {path} {fault}\n"),
    };
    match load(sheet, page.as_slice(), choice) {
        Ok(()) => format!(in heap; "{sheet}\n"),
        Err(fault) => format!(in heap; "refused {fault}\n"),
    }
}
