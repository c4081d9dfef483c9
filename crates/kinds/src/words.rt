// Reading the name of a bound off the words of a line.
ghost use Rattle.kinds.specs.Words.{NamesKind, KindNext, ChoiceNext};

use crate::chosen::Choice;
use crate::kind::Kind;
use std::str::SplitWhitespace;

// Why the words name no bound.
#[derive(Clone, Copy)]
pub enum Unnamed<'a> {
    // None is left.
    Missing,
    // This one names no kind.
    Unknown(&'a str),
}

// The kind that the next word names.
pub fn next_kind<'a>(words: &mut SplitWhitespace<'a>) -> Result<Kind, Unnamed<'a>>
    ensures { KindNext words.old result words.new }
{
    words.next().map_or(Err(Unnamed::Missing), named)
}

// The kind that a word names.
fn named<'a>(word: &'a str) -> Result<Kind, Unnamed<'a>>
    ensures { NamesKind word.now result }
{
    word.parse::<Kind>().map_err(|_| Unnamed::Unknown(word))
}

// What the next words name: a kind, or after "larger" two of them.
pub fn next_choice<'a>(words: &mut SplitWhitespace<'a>) -> Result<Choice, Unnamed<'a>>
    ensures { ChoiceNext words.old result words.new }
{
    let word = words.next().ok_or(Unnamed::Missing)?;
    if word != "larger" {
        return Ok(Choice::One(named(word)?));
    }
    let one = next_kind(words)?;
    let other = next_kind(words)?;
    Ok(Choice::Larger(one, other))
}
