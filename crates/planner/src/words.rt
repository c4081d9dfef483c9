// The lines that are answered.
use crate::desk::Answer;
use changeover::one_job_each;
use lines::AllBounds;
use sheet::Sheet;
use std::alloc::{AllocError, Global};

// The changeovers of a sheet, row by row.
fn rows(heap: Global, sheet: &Sheet) -> Result<Vec<u16>, AllocError> {
    let width = usize::from(sheet.setups());
    let mut numbers = Vec::new(heap);
    // Over setups: a sheet is asked for each changeover by its place.
    for from in 0..width {
        for to in 0..width {
            numbers.push(sheet.changeover(16 * from + to))?;
        }
    }
    Ok(numbers)
}

// A line for each kind of bound, with one job for each setup.
fn bounds(heap: Global, sheet: &Sheet) -> Result<String, AllocError> {
    let numbers = rows(heap, sheet)?;
    match one_job_each(sheet.setups(), numbers.as_slice()) {
        Ok(gaps) => {
            let bounds = AllBounds { gaps: &gaps };
            format!(in heap; "{bounds}\n")
        }
        Err(refusal) => format!(in heap; "refused {refusal}\n"),
    }
}

// The answer to a command that was played on a sheet.
pub fn answered(heap: Global, sheet: &Sheet, answer: Answer) -> Result<String, AllocError> {
    match answer {
        Answer::Made(setups) => format!(in heap; "made {setups}\n"),
        Answer::Bounds => bounds(heap, sheet),
        Answer::Posted(card) => format!(in heap; "posted {card}\n"),
        Answer::Narrowed(card) => format!(in heap; "narrowed {card}\n"),
        Answer::Withdrawn(card) => format!(in heap; "withdrawn {card}\n"),
        Answer::Looked(view) => format!(in heap; "window {view}\n"),
        Answer::Settled(settlement) => format!(in heap; "{settlement}\n"),
        Answer::Sheet => format!(in heap; "{sheet}\n"),
    }
}
