// Settles the cases of standard input, one a line, and writes how each ends.
#![tactic(auto)]

mod cases;
mod scripted;
mod show;

use cases::Named;
use changeover::Larger;
use face::Face;
use filtering::{Outcome, settle};
use kinds::Choice;
use std::io;
use std::io::{BufRead, BufReader};

fn settle_with(face: &Face, bound: Named) -> Outcome {
    match bound {
        // Whether it is one kind or the larger of two is told apart here, and not again at each number.
        Named::Chosen(Choice::One(kind)) => settle(face, kind),
        Named::Chosen(Choice::Larger(one, other)) => settle(face, Larger { one, other }),
        Named::Given(scripted) => settle(face, scripted),
    }
}

fn main(rt: HostRuntime) -> io::Result<()> {
    let heap = rt.alloc();
    for line in BufReader::new(heap, rt.stdin())?.lines(heap) {
        let text = line?;
        let mut words = text.as_str().split_whitespace();
        let bound = cases::bound(&mut words, text.as_str());
        let face = cases::face(&mut words);
        match (bound, face) {
            (Some(bound), Some(face)) => {
                let outcome = settle_with(&face, bound);
                rt.println(show::outcome(heap, face.jobs(), &outcome)?)?;
            }
            _ => rt.println("unread")?,
        }
    }
    Ok(())
}
