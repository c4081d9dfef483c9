// What a line asks for.
use lines::{Unread, short, uncommented};
use std::alloc::Global;
use std::str::SplitWhitespace;

#[derive(Drop)]
pub enum Command {
    // Take a matrix of so many setups, its numbers row by row.
    Make(u16, Vec<u16>),
    // Show the bounds with one job for each setup.
    Bounds,
}

fn make<'a>(heap: Global, mut words: SplitWhitespace<'a>) -> Result<Command, Unread<'a>> {
    let setups = short(words.next().ok_or(Unread::SetupsMissing)?)?;
    let mut numbers = Vec::new(heap);
    for word in words {
        numbers.push(short(word)?)?;
    }
    Ok(Command::Make(setups, numbers))
}

fn alone<'a>(command: Command, mut words: SplitWhitespace<'a>) -> Result<Command, Unread<'a>> {
    match words.next() {
        Some(word) => Err(Unread::TooMany(word)),
        None => Ok(command),
    }
}

// The command of a line, or none where it has no words.
pub fn read<'a>(heap: Global, line: &'a str) -> Result<Option<Command>, Unread<'a>> {
    let mut words = uncommented(line).split_whitespace();
    let Some(name) = words.next() else {
        return Ok(None);
    };
    match name {
        "make" => Ok(Some(make(heap, words)?)),
        "bounds" => Ok(Some(alone(Command::Bounds, words)?)),
        _ => Err(Unread::NoSuchCommand(name)),
    }
}
