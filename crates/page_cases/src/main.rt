// Loads pages, good and damaged ones, and writes what each load answers.
#![tactic(auto)]

mod commands;

use archive::{load, save};
use commands::{Command, read};
use kinds::Choice;
use sheet::Sheet;
use std::alloc::{AllocError, Global};
use std::io;
use std::io::{BufRead, BufReader};

// Whether the sheet is saved as this page.
fn saves_as(sheet: &Sheet, page: &[u8]) -> bool {
    let mut again = [0; 1292];
    match save(sheet, &mut again) {
        Ok(()) => again.as_slice() == page,
        Err(_) => false,
    }
}

// Lines joined by semicolons.
fn in_one_line(heap: Global, lines: &str) -> Result<String, AllocError> {
    let mut text = String::new(heap);
    for (i, line) in lines.lines().enumerate() {
        if i > 0 {
            text.push_str("; ")?;
        }
        text.push_str(line)?;
    }
    Ok(text)
}

// What a load answers.
fn loaded(heap: Global, page: &[u8], choice: Choice) -> Result<String, AllocError> {
    let mut sheet = Sheet::blank();
    match load(&mut sheet, page, choice) {
        Ok(()) => {
            let lines = format!(in heap; "{sheet}")?;
            let mut text = in_one_line(heap, lines.as_str())?;
            text.push_str(if saves_as(&sheet, page) {
                " same"
            } else {
                " other"
            })?;
            Ok(text)
        }
        Err(fault) => format!(in heap; "refused {fault}"),
    }
}

// The same with one byte replaced.
fn damaged(
    heap: Global,
    page: &[u8; 1292],
    byte: usize,
    value: u8,
    choice: Choice,
) -> Result<String, AllocError> {
    let mut other = *page;
    if byte < 1292 {
        other[byte] = value;
    }
    loaded(heap, &other, choice)
}

// The same of its first bytes alone.
fn cut(heap: Global, page: &[u8], count: usize, choice: Choice) -> Result<String, AllocError> {
    let end = count.min(page.len());
    loaded(heap, &page[0..end], choice)
}

fn main(rt: HostRuntime) -> io::Result<()> {
    let heap = rt.alloc();
    let mut page = [0; 1292];
    for line in BufReader::new(heap, rt.stdin())?.lines(heap) {
        let text = line?;
        match read(text.as_str()) {
            Some(Command::Page(bytes)) => page = bytes,
            Some(Command::Load(choice)) => rt.println(loaded(heap, &page, choice)?)?,
            Some(Command::Damage(byte, value, choice)) => {
                rt.println(damaged(heap, &page, byte, value, choice)?)?;
            }
            Some(Command::Cut(count, choice)) => rt.println(cut(heap, &page, count, choice)?)?,
            None => rt.println("unread")?,
        }
    }
    Ok(())
}
