// Reading a line.
use kinds::{Choice, next_choice};
use lines::{Unread, long, short, uncommented};
use rules::{Job, Window};
use std::alloc::Global;
use std::str::SplitWhitespace;

// What a line asks for: a command on the sheet, or one that also reaches a file.
#[derive(Drop)]
pub enum Request {
    On(Command),
    // Write the sheet as a page.
    Save(String),
    // Read a page, with a bound.
    Load(String, Choice),
}

#[derive(Drop)]
pub enum Command {
    // Take a matrix of so many setups, its numbers row by row.
    Make(u16, Vec<u16>),
    // Show the bounds with one job for each setup.
    Bounds,
    // Put a job on a card.
    Post(u16, Job, Window),
    // Replace the posted window of a card.
    Narrow(u16, Window),
    // Take a card off the sheet.
    Withdraw(u16),
    // Show the windows of a card.
    Look(u16),
    // Settle with a bound.
    Settle(Choice),
    // Show the sheet.
    Show,
}

// The next whole number of 16 bits.
fn next_short<'a>(words: &mut SplitWhitespace<'a>) -> Result<u16, Unread<'a>> {
    short(words.next().ok_or(Unread::NumberMissing)?)
}

// The next whole number of 32 bits.
fn next_long<'a>(words: &mut SplitWhitespace<'a>) -> Result<u32, Unread<'a>> {
    long(words.next().ok_or(Unread::NumberMissing)?)
}

fn next_window<'a>(words: &mut SplitWhitespace<'a>) -> Result<Window, Unread<'a>> {
    let early = next_long(words)?;
    let late = next_long(words)?;
    Ok(Window { early, late })
}

// A function for this and for rig's `make` would have to be told what to say where the setups are missing.
fn make<'a>(heap: Global, words: &mut SplitWhitespace<'a>) -> Result<Command, Unread<'a>> {
    let setups = next_short(words)?;
    let mut numbers = Vec::new(heap);
    for word in words {
        numbers.push(short(word)?)?;
    }
    Ok(Command::Make(setups, numbers))
}

fn post<'a>(words: &mut SplitWhitespace<'a>) -> Result<Command, Unread<'a>> {
    let card = next_short(words)?;
    let setup = next_short(words)?;
    let duration = next_long(words)?;
    let window = next_window(words)?;
    Ok(Command::Post(card, Job { setup, duration }, window))
}

fn narrow<'a>(words: &mut SplitWhitespace<'a>) -> Result<Command, Unread<'a>> {
    let card = next_short(words)?;
    let window = next_window(words)?;
    Ok(Command::Narrow(card, window))
}

fn next_file<'a>(heap: Global, words: &mut SplitWhitespace<'a>) -> Result<String, Unread<'a>> {
    let word = words.next().ok_or(Unread::FileMissing)?;
    Ok(String::from_str(heap, word)?)
}

fn load<'a>(heap: Global, words: &mut SplitWhitespace<'a>) -> Result<Request, Unread<'a>> {
    let file = next_file(heap, words)?;
    let choice = next_choice(words)?;
    Ok(Request::Load(file, choice))
}

// The command of a name and the words after it.
fn named<'a>(
    heap: Global,
    name: &'a str,
    words: &mut SplitWhitespace<'a>,
) -> Result<Command, Unread<'a>> {
    match name {
        "make" => make(heap, words),
        "bounds" => Ok(Command::Bounds),
        "post" => post(words),
        "narrow" => narrow(words),
        "withdraw" => Ok(Command::Withdraw(next_short(words)?)),
        "look" => Ok(Command::Look(next_short(words)?)),
        "settle" => Ok(Command::Settle(next_choice(words)?)),
        "show" => Ok(Command::Show),
        _ => Err(Unread::NoSuchCommand(name)),
    }
}

// The request of a name and the words after it.
fn requested<'a>(
    heap: Global,
    name: &'a str,
    words: &mut SplitWhitespace<'a>,
) -> Result<Request, Unread<'a>> {
    match name {
        "save" => Ok(Request::Save(next_file(heap, words)?)),
        "load" => load(heap, words),
        _ => Ok(Request::On(named(heap, name, words)?)),
    }
}

// The request of a line, or none where it has no words.
pub fn read<'a>(heap: Global, line: &'a str) -> Result<Option<Request>, Unread<'a>> {
    let mut words = uncommented(line).split_whitespace();
    let Some(name) = words.next() else {
        return Ok(None);
    };
    let request = requested(heap, name, &mut words)?;
    match words.next() {
        Some(word) => Err(Unread::TooMany(word)),
        None => Ok(Some(request)),
    }
}
