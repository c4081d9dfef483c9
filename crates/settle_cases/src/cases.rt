// Reading a case: a bound, the jobs and the gaps between them.
use crate::scripted::Scripted;
use changeover::Gaps;
use face::{Face, Job};
use kinds::{Choice, next_choice};
use std::str::SplitWhitespace;

// The bound that a case names.
#[derive(Clone, Copy)]
pub enum Named {
    Chosen(Choice),
    Given(Scripted),
}

fn number(words: &mut SplitWhitespace<'_>) -> Option<u32> {
    words.next()?.parse::<u32>().ok()
}

// The numbers that a case gives itself, of which the first says how many they are.
fn scripted(words: &mut SplitWhitespace<'_>) -> Option<Scripted> {
    let count = number(words)? as usize;
    let mut given = [0; 32];
    for place in &mut given[..count.min(32)] {
        *place = number(words)?;
    }
    Some(Scripted { given })
}

// The bound of a line: the words that name it, or numbers after "scripted".
pub fn bound(words: &mut SplitWhitespace<'_>, line: &str) -> Option<Named> {
    if line.split_whitespace().next()? == "scripted" {
        words.next()?;
        return scripted(words).map(Named::Given);
    }
    next_choice(words).ok().map(Named::Chosen)
}

fn job(words: &mut SplitWhitespace<'_>) -> Option<Job> {
    let duration = number(words)?;
    let early = number(words)?;
    let late = number(words)?;
    Some(Job {
        duration,
        early,
        late,
    })
}

fn gaps(words: &mut SplitWhitespace<'_>, n: usize) -> Option<Gaps> {
    let mut gaps = Gaps::new(n)?;
    // Over the places of the table: each is handed on as two job numbers.
    for k in 0..n * n {
        let minutes = u16::try_from(number(words)?).ok()?;
        gaps.set_gap(k / n, k % n, minutes).ok()?;
    }
    Some(gaps)
}

pub fn face(words: &mut SplitWhitespace<'_>) -> Option<Face> {
    let n = number(words)? as usize;
    if n > 32 {
        return None;
    }
    let none = Job {
        duration: 0,
        early: 0,
        late: 0,
    };
    let mut jobs = [none; 32];
    for place in &mut jobs[..n] {
        *place = job(words)?;
    }
    let gaps = gaps(words, n)?;
    Face::new(&jobs[0..n], &gaps)
}
