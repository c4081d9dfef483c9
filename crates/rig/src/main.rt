// Keeps the planner of one test rig: reads commands from standard input, one a line, and answers each.
#![tactic(auto)]

mod command;
mod desk;

use desk::Desk;
use std::io;
use std::io::{BufRead, BufReader, ErrorKind};

// Each program has its own loop: of what is read and printed a library's function could promise nothing.
fn main(rt: HostRuntime) -> io::Result<()> {
    let heap = rt.alloc();
    let mut desk = Desk::blank();
    let mut number: u64 = 0;
    for line in BufReader::new(heap, rt.stdin())?.lines(heap) {
        number = number.saturating_add(1);
        match line {
            Ok(text) => rt.print(desk.answer(heap, number, text.as_str())?)?,
            Err(fault) => {
                if fault.kind() != ErrorKind::InvalidData {
                    return Err(fault);
                }
                println!(rt; "unread {number} the line is not text")?;
            }
        }
    }
    Ok(())
}
