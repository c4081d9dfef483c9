// What a line asks for.
use kinds::{Choice, next_choice};
use std::str::SplitWhitespace;

#[derive(Clone, Copy)]
pub enum Command {
    // Take this page.
    Page([u8; 1292]),
    // Load it with a bound.
    Load(Choice),
    // Load it with one byte replaced.
    Damage(usize, u8, Choice),
    // Load its first bytes alone.
    Cut(usize, Choice),
}

// The byte of two hexadecimal digits.
fn byte(digits: &[u8]) -> Option<u8> {
    let [high, low] = digits else {
        return None;
    };
    Some((digit(*high)? << 4) | digit(*low)?)
}

// The value of a digit; `to_digit` would take upper case as well.
fn digit(byte: u8) -> Option<u8> {
    match byte {
        b'0'..=b'9' => Some(byte - b'0'),
        b'a'..=b'f' => Some(byte - b'a' + 10),
        _ => None,
    }
}

// The bytes of a page in hexadecimal digits.
fn page(digits: &[u8]) -> Option<[u8; 1292]> {
    if digits.len() != 2584 {
        return None;
    }
    let mut bytes = [0; 1292];
    for (place, pair) in bytes.iter_mut().zip(digits.chunks_exact(2)) {
        *place = byte(pair)?;
    }
    Some(bytes)
}

fn number(words: &mut SplitWhitespace<'_>) -> Option<u32> {
    words.next()?.parse::<u32>().ok()
}

// The command of a line, or none where it cannot be read.
pub fn read(line: &str) -> Option<Command> {
    let mut words = line.split_whitespace();
    match words.next()? {
        "page" => {
            let bytes = page(words.next()?.as_bytes())?;
            Some(Command::Page(bytes))
        }
        "load" => {
            let choice = next_choice(&mut words).ok()?;
            Some(Command::Load(choice))
        }
        "damage" => {
            let byte = number(&mut words)? as usize;
            let value = u8::try_from(number(&mut words)?).ok()?;
            let choice = next_choice(&mut words).ok()?;
            Some(Command::Damage(byte, value, choice))
        }
        "cut" => {
            let count = number(&mut words)? as usize;
            let choice = next_choice(&mut words).ok()?;
            Some(Command::Cut(count, choice))
        }
        _ => None,
    }
}
