// The part of a line that is read, and the numbers in it.
ghost use Rattle.std.specs.Prelude.{◌≡◌};
ghost use Rattle.lines.specs.Numbers.{before_hash, ShortRead, LongRead};

use crate::unread::Unread;

// The part of a line before its comment.
pub fn uncommented(line: &str) -> &str
    ensures { result.now ≡ before_hash line.now }
{
    line.split_once('#').map_or(line, |(before, _)| before)
}

// The whole number of 16 bits that a word writes.
pub fn short<'a>(word: &'a str) -> Result<u16, Unread<'a>>
    ensures { ShortRead word.now result }
{
    word.parse::<u16>().map_err(|_| Unread::NoShort(word))
}

// The whole number of 32 bits that a word writes.
pub fn long<'a>(word: &'a str) -> Result<u32, Unread<'a>>
    ensures { LongRead word.now result }
{
    word.parse::<u32>().map_err(|_| Unread::NoLong(word))
}
