// Keeps the planner of one test rig: reads commands from standard input, one a line, and answers each.
#![tactic(auto)]

mod command;
mod desk;
mod files;
mod words;

use command::{Request, read};
use desk::play;
use files::{load_from, save_to};
use sheet::Sheet;
use std::alloc::AllocError;
use std::io;
use std::io::{BufRead, BufReader, ErrorKind};
use words::answered;

// The answer to a line, ended by a line feed; nothing where it has no words.
fn answer(
    rt: &HostRuntime,
    sheet: &mut Sheet,
    number: u64,
    line: &str,
) -> Result<String, AllocError> {
    let heap = rt.alloc();
    match read(heap, line) {
        Ok(None) => Ok(String::new(heap)),
        Ok(Some(Request::On(command))) => match play(sheet, &command) {
            Ok(answer) => answered(heap, sheet, answer),
            Err(refused) => format!(in heap; "refused {refused}\n"),
        },
        Ok(Some(Request::Save(path))) => save_to(rt, sheet, path.as_str()),
        Ok(Some(Request::Load(path, choice))) => load_from(rt, sheet, path.as_str(), choice),
        Err(unread) => format!(in heap; "unread {number} {unread}\n"),
    }
}

// Each program has its own loop: of what is read and printed a library's function could promise nothing.
fn main(rt: HostRuntime) -> io::Result<()> {
    let heap = rt.alloc();
    let mut sheet = Sheet::blank();
    let mut number: u64 = 0;
    for line in BufReader::new(heap, rt.stdin())?.lines(heap) {
        number = number.saturating_add(1);
        match line {
            Ok(text) => rt.print(answer(&rt, &mut sheet, number, text.as_str())?)?,
            Err(fault) => {
                if fault.kind() != ErrorKind::InvalidData {
                    return Err(fault);
                }
                println!(rt; "unread {number} the line is not text")?;
            }
        }
    }
    Ok(())
}
